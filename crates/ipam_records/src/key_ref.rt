ghost use Rattle.std.specs.Prelude.{◌≡◌, ◌↔◌, IfOk, IsTrue};
ghost use Rattle.ipam_records.specs.Key.{key_of};
ghost use Rattle.ipam_records.specs.KeyOrder.{key_cmp, key_rank, key_name, key_block};
ghost use Rattle.ipam_records.specs.KeyRef.{owned_key};

use crate::key::Key;
use crate::record::Record;
use ipam_addr::Cidr;
use ipam_text::Text;
use std::alloc::{AllocError, Global};
use std::cmp::Ordering;

/// A key that borrows its texts, so that making one takes no memory.
#[derive(Clone, Copy)]
pub enum KeyRef<'a> {
    /// The configuration, of which there is one record at most.
    Config,
    /// The table of all pools, which is one record.
    Pools,
    /// The list of all reservations, which is one record.
    Reservations,
    /// The block of this CIDR.
    Block(Cidr),
    /// The affinity of this node to the block of this CIDR.
    Affinity(&'a str, Cidr),
    /// The handle of this id.
    Handle(&'a str),
}

impl<'a> KeyRef<'a> {
    /// The key, borrowed.
    pub fn of(key: &'a Key) -> KeyRef<'a>
        ensures { owned_key result ≡ key.now }
    {
        match key {
            Key::Config => KeyRef::Config,
            Key::Pools => KeyRef::Pools,
            Key::Reservations => KeyRef::Reservations,
            Key::Block(cidr) => KeyRef::Block(*cidr),
            Key::Affinity(node, cidr) => KeyRef::Affinity(node.as_str(), *cidr),
            Key::Handle(id) => KeyRef::Handle(id.as_str()),
        }
    }

    /// The key that the record is found by.
    pub fn of_record(value: &'a Record) -> KeyRef<'a>
        ensures { owned_key result ≡ key_of value.now }
    {
        match value {
            Record::Config(_) => KeyRef::Config,
            Record::Pools(_) => KeyRef::Pools,
            Record::Reservations(_) => KeyRef::Reservations,
            Record::Block(block) => KeyRef::Block(block.cidr()),
            Record::Affinity(affinity) => KeyRef::Affinity(affinity.node.as_str(), affinity.cidr),
            Record::Handle(handle) => KeyRef::Handle(handle.id()),
        }
    }

    /// A copy that owns its texts.
    pub fn to_key(&self, alloc: Global) -> Result<Key, AllocError>
        ensures { IfOk result (λ key. key ≡ owned_key self.now) }
    {
        match self {
            KeyRef::Config => Ok(Key::Config),
            KeyRef::Pools => Ok(Key::Pools),
            KeyRef::Reservations => Ok(Key::Reservations),
            KeyRef::Block(cidr) => Ok(Key::Block(*cidr)),
            KeyRef::Affinity(node, cidr) => Ok(Key::Affinity(Text::copied(alloc, node)?, *cidr)),
            KeyRef::Handle(id) => Ok(Key::Handle(Text::copied(alloc, id)?)),
        }
    }

    /// How the keys stand to each other: by kind, then by the bytes of the node or the id, then
    /// by the block.
    pub fn compare(&self, other: &KeyRef<'_>) -> Ordering
        ensures { result ≡ key_cmp (owned_key self.now) (owned_key other.now) }
    {
        let names = self.name().cmp(&other.name());
        let blocks = self.block().cmp(&other.block());
        self.rank().cmp(&other.rank()).then(names.then(blocks))
    }

    /// Whether they are one key.
    pub fn is_same(&self, other: &KeyRef<'_>) -> bool
        ensures { IsTrue result ↔ (owned_key self.now ≡ owned_key other.now) }
    {
        self.compare(other).is_eq()
    }

    /// Where the keys of its kind stand.
    fn rank(&self) -> u8
        ensures { result ≡ key_rank (owned_key self.now) }
    {
        match self {
            KeyRef::Config => 0,
            KeyRef::Pools => 1,
            KeyRef::Reservations => 2,
            KeyRef::Block(_) => 3,
            KeyRef::Affinity(..) => 4,
            KeyRef::Handle(_) => 5,
        }
    }

    /// The node or the id in it.
    fn name(&self) -> &'a str
        ensures { result.now ≡ key_name (owned_key self.now) }
    {
        match self {
            KeyRef::Affinity(name, _) | KeyRef::Handle(name) => name,
            _ => "",
        }
    }

    /// The block in it.
    fn block(&self) -> Option<Cidr>
        ensures { result ≡ key_block (owned_key self.now) }
    {
        match self {
            KeyRef::Block(cidr) | KeyRef::Affinity(_, cidr) => Some(*cidr),
            _ => None,
        }
    }
}
