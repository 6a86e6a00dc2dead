//! The exit status of the program.

ghost use Rattle.std.specs.Prelude.{◌≡◌};
ghost use Rattle.std.specs.Process.{exit_status};
ghost use Rattle.plain_machine.specs.Statuses.{number_of};

use plain_machine::Status;
use std::process::ExitCode;

/// The exit status of a way to end, 0 to 7.
pub fn exit_code(status: Status) -> ExitCode
    ensures { exit_status result ≡ number_of status }
{
    ExitCode::from(match status {
        Status::Done => 0,
        Status::SomeRefused => 1,
        Status::Usage => 2,
        Status::BadGraph => 3,
        Status::ReadFault => 4,
        Status::WriteFault => 5,
        Status::Memory => 6,
        Status::TooLong => 7,
    })
}
