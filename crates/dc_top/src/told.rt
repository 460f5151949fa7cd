// How the end of a run is told.
ghost use Rattle.std.specs.Prelude.{◌≡◌, IfOk};
ghost use Rattle.dc_top.specs.Told.{told_as};

use crate::program::Ending;
use crate::report::{bound_line, ended_line, trap_line};
use dc_types::{Status, Text};
use std::alloc::{AllocError, Global};
use std::slice;

/// How the end of a run is told.
#[derive(Drop)]
pub struct Told {
    pub status: Status,
    /// The line of the report, or nothing.
    pub line: Text,
}

/// How the end of a run in at most so many ticks is told. The text is the one that the program's places count in.
pub fn tell(alloc: Global, text: &Text, ticks: u64, ending: &Ending) -> Result<Told, AllocError>
    ensures { IfOk result (λ told. told ≡ told_as text.now ticks ending.now) }
{
    match ending {
        Ending::Number(number) => {
            if *number == 0 {
                Ok(Told {
                    status: Status::Done,
                    line: Text::new(alloc),
                })
            } else {
                Ok(Told {
                    status: Status::EndedWith,
                    line: ended_line(alloc, *number)?,
                })
            }
        }
        Ending::Trapped(trap) => Ok(Told {
            status: Status::Trapped,
            line: trap_line(alloc, slice::from_ref(text), trap)?,
        }),
        Ending::Bound => Ok(Told {
            status: Status::Bound,
            line: bound_line(alloc, ticks)?,
        }),
    }
}
