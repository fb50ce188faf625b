// The status of the process, and that of a refused turn.
ghost use Rattle.std.specs.Prelude.{◌≡◌};
ghost use Rattle.program_end.specs.EndStatus.{status_number, status_of};

use ev_types::Status;
use relay_drive::DriveFault;

/// The status of the process: 0 to 10, in the order of the statuses. Constant cost.
///
/// Own.
pub fn process_status(status: Status) -> u8
    ensures { result ≡ status_number status }
{
    match status {
        Status::Ok => 0,
        Status::Usage => 1,
        Status::BadScript(_) => 2,
        Status::ReadFault => 3,
        Status::WriteFault => 4,
        Status::PollFault => 5,
        Status::Stopped(_, _) => 6,
        Status::TooLong => 7,
        Status::Memory => 8,
        Status::OpenFault => 9,
        Status::Spent => 10,
    }
}

/// How the program ends where a turn was refused. Constant cost.
///
/// Own.
pub fn fault_status(fault: DriveFault) -> Status
    ensures { result ≡ status_of fault }
{
    match fault {
        DriveFault::Memory => Status::Memory,
        DriveFault::PollFault => Status::PollFault,
        DriveFault::OpenFault => Status::OpenFault,
        DriveFault::Spent => Status::Spent,
    }
}
