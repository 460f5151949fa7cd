// Places to write to.
ghost use Rattle.std.specs.Prelude.{ℕ, List, Option};
ghost use Rattle.std.specs.Result.{IsErrOf};
ghost use Rattle.dc_edge.specs.Causes.{CountsFaults};
ghost use Rattle.dc_edge.specs.Sink.{Takes};

use thiserror::Error;

/// Why a piece wasn't taken whole.
#[derive(Clone, Copy, Debug, Error)]
pub enum SinkFault {
    #[error("the write failed")]
    Failed,
    #[error("out of memory")]
    NoMemory,
}

/// A place to write to, piece by piece.
pub trait Sink {
    /// The bytes that it has taken, where it tells them.
    ghost taken: { Self → Option (List ℕ) };

    /// How often a put has failed. The count stands still at its type's end.
    ghost faults: { Self → ℕ };

    /// Writes a piece at the end.
    ///
    /// `Failed` takes a front of the piece and raises the count of faults, which nothing else does. `NoMemory` takes
    /// nothing.
    fn put(&mut self, piece: &[u8]) -> Result<(), SinkFault>
        ensures content { Takes (taken self.old) (taken self.new) piece.now result }
        ensures cause { CountsFaults (faults self.old) (faults self.new) (IsErrOf result SinkFault.Failed) };
}
