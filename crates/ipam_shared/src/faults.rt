/// The pass has no turn left.
#[derive(Clone, Copy, Debug, PartialEq, Eq)]
pub struct SpentPass;

/// Why nothing was done in a turn.
#[derive(Clone, Copy, Debug, PartialEq, Eq)]
pub enum SharedFault<E> {
    /// The pass has no turn left, so there was no turn.
    SpentPass,
    /// The kept cluster's own refusal. The turn is spent.
    Inner(E),
}
