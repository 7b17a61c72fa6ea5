ghost use Rattle.std.specs.Prelude.{◌≡◌, ℕ, false, ⊤};

/// A gate at which workers, identified by number, wait for one another at points numbered in order.
pub trait Gate {
    /// What a caller may conclude if a point is shut to the worker with this number. By default, this is nothing, so a
    /// gate may also stop waiting after some time, or open only some of its points.
    ghost shuts: { Self → ℕ → Type 0 } = { λ _ _. ⊤ };

    /// Arrives at a point and waits until the gate lets the worker pass. Returns false if the gate is shut to the
    /// worker.
    fn pass(&self, worker: usize, point: u8) -> bool
        ensures shut { result ≡ false → shuts self.now worker };

    /// Leaves the gate; from then on, nobody waits for this worker.
    fn leave(&self, worker: usize);
}
