ghost use Rattle.std.specs.Prelude.{◌≡◌, [], ◌∷◌, IfSome, IfNone};

use std::collections::VecDeque;

/// Takes the first of what waits, if there is one. Takes no memory.
pub fn first_of<T>(queue: &mut VecDeque<T>) -> Option<T>
    ensures some { IfSome result (λ first. queue.old.items ≡ first ∷ queue.new.items) }
    ensures none { IfNone result (queue.old.items ≡ []) }
{
    queue.pop_front()
}
