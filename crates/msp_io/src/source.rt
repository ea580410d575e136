// What bytes come from.
ghost use Rattle.std.specs.Prelude.{◌≡◌, ℕ, ◌<◌, ◌≤◌, ◌^◌, List, [], ◌++◌, length, take, IfOk, OnErr};
ghost use Rattle.msp_io.specs.Faults.{Rose};
ghost use Rattle.msp_io.specs.Sources.{KeepsLaws, MeetsEnd, TellsEnd};
ghost use Rattle.msp_io.specs.Views.{SourceView};

/// A read or a write did not succeed, and moved no byte.
#[derive(Clone, Copy, PartialEq, Eq)]
pub struct Failed;

/// A source of bytes.
pub trait Source {
    /// The bytes still to come, how many were given, and how often the source has failed.
    ghost seen: { Self → SourceView };

    /// From the one moment to the other the source gave these bytes, and no others, by reads that did not meet the end or fail.
    ghost gave: { Self → Self → List ℕ → Type 0 };

    /// From the one moment to the other the source gave these bytes, and the last read, and no other, met the end.
    ghost finished: { Self → Self → List ℕ → Type 0 };

    /// From the one moment to the other the source gave these bytes, and then a read failed.
    ghost broke: { Self → Self → List ℕ → Type 0 };

    /// Writes bytes to the front of `into`, and returns how many.
    ///
    /// A count of 0 for a slice that is not empty is the end of the input.
    ///
    /// # Errors
    ///
    /// `Failed` comes only where the count of faults rose in this call. It takes no byte,
    /// and a later call may succeed.
    fn read(&mut self, into: &mut [u8]) -> Result<usize, Failed>
        ensures count { IfOk result (λ n. n ≤ length into.old) }
        // The bytes in front are those that were given.
        ensures taken { IfOk result (λ n. ¬ MeetsEnd (length into.old) n → gave self.old self.new (take n into.new)) }
        ensures end { IfOk result (λ n. 0 < length into.old → TellsEnd (seen self.old).left (seen self.new).left n) }
        ensures last { IfOk result (λ n. MeetsEnd (length into.old) n → finished self.old self.new []) }

        ensures failed { OnErr result (Rose (seen self.old).faults (seen self.new).faults) }
        ensures broken { OnErr result (broke self.old self.new []) }
        ensures faults { (seen self.old).faults ≤ (seen self.new).faults };

    /// The count is a number of 64 bits.
    ghost fits: { (s : Self) → (seen s).faults < 2 ^ 64 };

    /// Nothing is given without a call, what several calls gave is joined up to the end or a failure and not beyond, and what is
    /// seen of the source moves with it.
    ghost lawful: { KeepsLaws seen gave finished broke };
}
