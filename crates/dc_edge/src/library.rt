// Files that can be read.
ghost use Rattle.std.specs.Prelude.{◌≡◌, ℕ, Option};
ghost use Rattle.std.specs.Result.{IsErrOf};
ghost use Rattle.dc_edge.specs.Causes.{CountsFaults};
ghost use Rattle.dc_edge.specs.Library.{FileMap, Reads};

use dc_types::Text;
use std::alloc::Global;
use thiserror::Error;

/// Why a file's bytes aren't there.
#[derive(Clone, Copy, Debug, Error)]
pub enum LibFault {
    #[error("the read failed")]
    Failed,
    #[error("there is no such file")]
    Missing,
    #[error("out of memory")]
    NoMemory,
}

/// Files that can be read, by their paths.
pub trait Library {
    /// The files, where the library tells them.
    ghost told: { Self → Option FileMap };

    /// How often a read has failed. The count stands still at its type's end.
    ghost faults: { Self → ℕ };

    /// The bytes of a file.
    ///
    /// `Failed` raises the count of faults, and nothing else does. `Missing` comes only where the files are told
    /// and have no such path.
    fn read(&mut self, alloc: Global, path: &[u8]) -> Result<Text, LibFault>
        ensures same { told self.new ≡ told self.old }
        ensures content { Reads (told self.old) path.now result }
        ensures cause { CountsFaults (faults self.old) (faults self.new) (IsErrOf result LibFault.Failed) };
}
