// What is done in a slot of the kept cluster in one turn.
ghost use Rattle.std.specs.Prelude.{◌≡◌, ◌↔◌, ◌<◌, ◌++◌, ℕ, List, IsTrue, IsSome};
ghost use Rattle.ipam_model.specs.declared.entry.Entry.{Entry as OneEntry};
ghost use Rattle.ipam_model.specs.declared.limits.TheConstants.{SLOTS};
ghost use Rattle.ipam_model.specs.History.{Base, slot_of_entry};
ghost use Rattle.ipam_cluster.specs.Cluster.{slot_of_cluster};
ghost use Rattle.ipam_shared.specs.declared.kept.Kept.{Kept as KeptValue};
ghost use Rattle.ipam_shared.specs.Kept.{IsKept};
ghost use Rattle.ipam_shared.specs.Sure.{HeldFor};
ghost use Rattle.turn_lock.specs.Histories.{AtMostOneBy};

use crate::kept::Kept;
use crate::locked::Locked;
use ipam_keeper::Keeper;
use ipam_model::SlotState;
use turn_lock::Step;

/// A thing that is done in a slot. It adds at most one entry, of the slot.
pub(crate) trait Deed<D: Keeper> {
    /// What it answers.
    type Answer;

    // what it needs of who asks for it
    ghost can: { Self → Type 0 };

    // the slot, the cluster before, the answer and the cluster after
    ghost does: { Self → ℕ → KeptValue D → Self.Answer → KeptValue D → Type 0 };

    // the entries that an answer tells of
    ghost told: { Self.Answer → List OneEntry };

    /// Does it.
    fn run(self, kept: &mut Kept<D>, slot: u8) -> Self::Answer
        requires slot { slot < SLOTS }
        requires can { can self }
        requires kept { IsKept D.rows kept.old }
        ensures does { does self slot kept.old result kept.new }
        ensures own { AtMostOneBy slot_of_entry slot (told result) }
        ensures keeps { (base : Base) (history : List OneEntry) → HeldFor D.rows D.settled kept.old base history
            → HeldFor D.rows D.settled kept.new base (told result ++ history) };
}

/// The deed, in this slot. It also answers whether something runs there after it, and how many entries there
/// are.
#[derive(Drop)]
pub(crate) struct InSlot<W> {
    pub(crate) slot: u8,
    pub(crate) deed: W,
}

impl<D: Keeper, W: Deed<D>> Step<Locked<D>> for InSlot<W> {
    type Out = (W::Answer, bool, u64);

    ghost by = { λ step. step.slot };

    ghost can = { λ step locked. (step.slot < SLOTS) × W.can step.deed × IsKept D.rows locked.kept };

    ghost does = { λ step before out after. W.does step.deed step.slot before.kept out.0 after.kept
        × (IsTrue out.1 ↔ IsSome (slot_of_cluster after.kept.cluster step.slot)) × (out.2 ≡ after.kept.cluster.entries) };

    ghost adds = { λ step before out after. W.told out.0 };

    fn run(self, value: &mut Locked<D>) -> (W::Answer, bool, u64) {
        let InSlot { slot, deed } = self;
        let answer = deed.run(&mut value.kept, slot);
        let running = value.kept.cluster().state(slot) != SlotState::Idle;
        let entries = value.kept.cluster().entries();
        (answer, running, entries)
    }
}
