//! Where times come from.
ghost use Rattle.std.specs.Prelude.{◌≡◌, ℕ, ◌∷◌, [], Option};
ghost use Rattle.ipam_io.specs.Readings.{prepend_known_readings};

/// What is asked for the time.
pub trait Clock {
    /// The readings that the clock will give from here on, where it tells them: the reading that
    /// follows on so many others.
    ghost ahead: { Self → Option (ℕ → ℕ) };

    /// The next reading, in whole seconds. It need not be real time, and may be less than the one
    /// before it.
    fn now(&mut self) -> u64
        ensures { ahead self.old ≡ prepend_known_readings (result ∷ []) (ahead self.new) };
}
