// What bytes go to.
ghost use Rattle.std.specs.Prelude.{ℕ, ◌<◌, ◌≤◌, ◌^◌, List, [], length, take, IfOk, OnErr};
ghost use Rattle.msp_io.specs.Faults.{Rose};
ghost use Rattle.msp_io.specs.Sinks.{KeepsLaws};
ghost use Rattle.msp_io.specs.Views.{SinkView};

use crate::Failed;

/// A sink of bytes.
pub trait Sink {
    /// The bytes taken so far, how many they are, and how often the sink has failed.
    ghost seen: { Self → SinkView };

    /// From the one moment to the other the sink took these bytes, and no others, by writes that did not fail.
    ghost took: { Self → Self → List ℕ → Type 0 };

    /// From the one moment to the other the sink took these bytes, and then a write failed.
    ghost broke: { Self → Self → List ℕ → Type 0 };

    /// Takes bytes from the front of `bytes`, and returns how many: at least one, unless the slice is empty.
    ///
    /// # Errors
    ///
    /// `Failed` comes only where the count of faults rose in this call. It takes no byte,
    /// and a later call may succeed.
    fn write(&mut self, bytes: &[u8]) -> Result<usize, Failed>
        ensures count { IfOk result (λ n. n ≤ length bytes.now) }
        ensures moves { IfOk result (λ n. 0 < length bytes.now → 0 < n) }
        ensures taken { IfOk result (λ n. took self.old self.new (take n bytes.now)) }

        ensures failed { OnErr result (Rose (seen self.old).faults (seen self.new).faults) }
        ensures broken { OnErr result (broke self.old self.new []) }
        ensures faults { (seen self.old).faults ≤ (seen self.new).faults };

    /// The count is a number of 64 bits.
    ghost fits: { (s : Self) → (seen s).faults < 2 ^ 64 };

    /// Nothing is taken without a call, what several calls took is joined up to a failure and not beyond, and what is seen of the
    /// sink moves with it.
    ghost lawful: { KeepsLaws seen took broke };
}
