// A pass.
ghost use Rattle.std.specs.Prelude.{◌≡◌, ◌+◌, ◌<◌, ◌≤◌, ◌↔◌, Some, None, IsTrue, IsSome};
ghost use Rattle.ipam_model.specs.declared.limits.TheConstants.{SLOTS};

use crate::opened::Opened;
use ipam_laws::whole::every_lawful_history_is_right;
use ipam_model::Entry;
use std::marker::Model;
use turn_lock::Turns;

/// The right to take turns at a shared cluster, in a slot of its own, and what its holder knows of the
/// history. It has no copy. A pass that is dropped keeps the cluster from being closed.
#[derive(Drop)]
pub struct Pass {
    pub(crate) turns: Turns<Opened, Entry>,
    pub(crate) running: bool,
    /// How many entries there were when it last learned all that there was.
    pub(crate) moment: u64,
    /// So many entries it knows to be sure.
    pub(crate) sure: Option<u64>,
}

impl Model for Pass {
    ghost use Rattle.ipam_shared.specs.PassValue.{PassValue};

    ghost Value = { PassValue };

    ghost use Rattle.std.specs.Coded.{codes};
    ghost use Rattle.atomic_table.specs.Seated.{table_id_coded};
    ghost use Rattle.ipam_records.specs.contracts.record.Record as kept;
    ghost use Rattle.ipam_model.specs.contracts.entry.Entry as told;

    ghost coded = { Prim.hlevel (codes, table_id_coded, kept.the_row.coded, told.the_row.coded) };

    ghost use Rattle.ipam_shared.specs.Passes.{value_of, IsPass};

    ghost view = { λ pass. value_of pass.turns pass.moment pass.sure };

    ghost invariant = { λ pass. IsPass (value_of pass.turns pass.moment pass.sure) pass.running };
}

impl Pass {
    ghost use Rattle.ipam_laws.specs.Right.{IsRight};
    ghost use Rattle.ipam_shared.specs.Passes.{runs_in, IsReached};
    ghost use Rattle.ipam_shared.specs.Settling.{KnowsSure};

    /// The slot, from 0 to 63. No two passes of a lock have one slot.
    pub fn slot(&self) -> u8
        ensures is { result ≡ self.now.slot }
        ensures low { (result < self.now.made) × (self.now.made ≤ SLOTS) }
    {
        self.turns.number()
    }

    /// How many turns it may still take.
    pub fn left(&self) -> u64
        ensures { result ≡ self.now.left }
    {
        self.turns.left()
    }

    /// How many slots it knows to be given out.
    pub fn made(&self) -> u8
        ensures { result ≡ self.now.made }
    {
        self.turns.made()
    }

    /// Whether something runs in its slot, be it a collection that waits.
    pub fn running(&self) -> bool
        ensures { IsTrue result ↔ IsSome (runs_in self.now) }
    {
        self.running
    }

    /// Whether it knows all that it has learned to be sure. With that all is sure that was done in its slot.
    pub fn is_sure(&self) -> bool
        ensures sure { IsTrue result ↔ KnowsSure self.now }
        ensures reached { IsReached self.now }
    {
        match self.sure {
            Some(count) => self.moment <= count,
            None => false,
        }
    }

    /// How many entries there were when it last learned all that there was.
    pub(crate) fn moment(&self) -> u64
        ensures is { result ≡ self.now.moment }
        ensures reached { IsReached self.now }
    {
        self.moment
    }

    /// Sets what it has learned to what there was at this moment, and no more.
    pub(crate) fn tell(&mut self, moment: u64)
        requires { IsReached (record self.old { moment = moment }) }
        ensures { self.new ≡ record self.old { moment = moment } }
    {
        self.moment = moment;
    }

    /// Has it know so many entries to be sure.
    pub(crate) fn know_sure(&mut self, count: u64)
        ensures { self.new ≡ record self.old { sure = Some count } }
    {
        self.sure = Some(count);
    }

    /// Has it know nothing to be sure any more, until its next settling.
    pub fn forget_sure(&mut self)
        ensures { self.new ≡ record self.old { sure = None } }
    {
        self.sure = None;
    }

    /// Whether all other passes of the lock were joined into it, directly or through joined ones.
    pub fn is_last(&self) -> bool
        ensures { IsTrue result ↔ (self.now.joined + 1 ≡ self.now.made) }
    {
        self.turns.is_last()
    }

    /// What a pass has seen is right, whatever it has seen. The function does nothing: its contract is
    /// the law.
    pub fn has_seen_what_is_right(&self)
        ensures { IsRight self.now.base self.now.seen }
    {
        let _seen = &self.turns;
        every_lawful_history_is_right();
    }
}
