// Where a program's text goes.
ghost use Rattle.std.specs.Prelude.{◌<◌, ◌≤◌, ℕ, List, Option, length, take, IfOk, OnErr};
ghost use Rattle.sf_base.specs.Written.{Appends, Kept};
ghost use Rattle.sf_base.specs.Seen.{SinkSeen};
ghost use Rattle.sf_base.specs.Faults.{Cause};

use crate::Failed;

/// A stream of bytes that are only ever appended.
pub trait Sink {
    /// What was written, and how many writes have failed.
    ghost seen: { Self → SinkSeen };

    /// Appends the first bytes of `piece`, one or more, and returns how many.
    ///
    /// # Errors
    ///
    /// `Failed` if the write failed. Nothing was appended then.
    fn write(&mut self, piece: &[u8]) -> Result<usize, Failed>
        requires { 0 < length piece.now }
        ensures within { IfOk result (λ n. (1 ≤ n) × (n ≤ length piece.now)) }
        ensures appends { IfOk result (λ n. Appends ((seen self.old).written) ((seen self.new).written) (take n piece.now)) }
        ensures kept { OnErr result (Kept ((seen self.old).written) ((seen self.new).written)) }
        ensures cause { Cause ((seen self.old).faults) ((seen self.new).faults) result };
}
