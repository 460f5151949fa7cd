// The numbers of the statuses.
ghost use Rattle.std.specs.Prelude.{◌≡◌};
ghost use Rattle.dpc.specs.Statuses.{number_of};

use dc_types::Status;

/// The exit status of the program.
pub fn number_of(status: Status) -> u8
    ensures { result ≡ number_of status }
{
    match status {
        Status::Done => 0,
        Status::Usage => 2,
        Status::Refused => 10,
        Status::Trapped => 11,
        Status::Bound => 12,
        Status::EndedWith => 13,
        Status::ReadFault => 20,
        Status::WriteFault => 21,
        Status::NoMemory => 22,
    }
}
