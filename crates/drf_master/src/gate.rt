//! Gates: they decide whether a worker of a drive makes its next call.
ghost use Rattle.std.specs.Prelude.{MatchBool};

/// Decides whether a worker makes its next call, and sees each call that was made. Each worker asks it before and after each of its calls, and does
/// not hold the lock then if `together` is 1 (the contracts do not say this). Workers and calls are counted from 0. A gate with nothing to state uses
/// `Unit {0}` for each call.
pub trait Gate {
    ghost use Rattle.std.specs.Prelude.{ℕ};

    /// What holds for a worker and a call that it allows.
    ghost lets: { Self → ℕ → ℕ → Type 0 };

    /// What holds for a worker and a call at which it stops the worker.
    ghost stops: { Self → ℕ → ℕ → Type 0 };

    /// What holds for a worker and a call once the gate knows that the call was made.
    ghost sees: { Self → ℕ → ℕ → Type 0 };

    /// Returns whether the worker makes this call. With `false` the worker stops.
    fn before(&self, worker: u64, call: u64) -> bool
        ensures { MatchBool result (lets self.now worker call) (stops self.now worker call) };

    /// Is called after a call was made.
    fn after(&self, worker: u64, call: u64)
        ensures { sees self.now worker call };

    /// Returns the number of calls for which a worker keeps the lock. If it is more than 1, the gate is asked while the lock is held, so it must not
    /// wait. The contracts do not mention this number.
    fn together(&self) -> u64 {
        1
    }
}

/// The gate that allows all calls.
pub struct OpenGate;

impl Gate for OpenGate {
    ghost lets = { λ gate worker call. Unit {0} };

    ghost stops = { λ gate worker call. ⊥ };

    ghost sees = { λ gate worker call. Unit {0} };

    fn before(&self, _worker: u64, _call: u64) -> bool {
        true
    }

    fn after(&self, _worker: u64, _call: u64) {}

    /// Returns 256: if two threads alternate at the lock, they wait for each other longer than a call takes.
    fn together(&self) -> u64 {
        256
    }
}
