// What a pass knows of its lock. It exists in proofs alone: no value of it is made.
ghost use Rattle.std.specs.Prelude.{ℕ, List};
ghost use base.Stored.{coded_list};
ghost use base.Fml.{ftrue};

use std::marker::{Model, PhantomData};

/// What a pass knows, for proofs alone.
pub struct View<O, E> {
    of: PhantomData<(O, E)>,
    // 1 for a pass, 0 for what is left of one that was joined into another
    pub ghost live: { ℕ },
    // 1 while it has the value out of the lock
    pub ghost holds: { ℕ },
    // the ticket that it has drawn, while it waits and holds
    pub ghost waits: { List ℕ },
    pub ghost left: { ℕ },
    pub ghost number: { ℕ },
    // the number that it has drawn for a pass which is not split off yet, or 0
    pub ghost spare: { ℕ },
    // how often it may still draw a number
    pub ghost tries: { ℕ },
    pub ghost made: { ℕ },
    // its number, those of the passes that were joined into it, and the spare one
    pub ghost owns: { List ℕ },
    pub ghost origin: { List O } by { coded_list O.code },
    // where the history of the pass starts that was joined into it last, or else its own
    pub ghost root: { List O } by { coded_list O.code },
    pub ghost seen: { List E } by { coded_list E.code },
    // what a pass that was just joined into it had seen
    pub ghost other: { List E } by { coded_list E.code },
}

impl<O, E> Model for View<O, E> {
    ghost also_owns = { λ _. ftrue };
}
