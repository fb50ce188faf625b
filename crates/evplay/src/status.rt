// The statuses of scripts that can't be played.
ghost use Rattle.std.specs.Prelude.{◌≡◌};
ghost use Rattle.evplay.specs.Status.{bad_status, buffers_status};

use buffers_mode::ModeFault;
use ev_types::Status;
use script_text::ScriptFault;

/// How the program ends where its source is no script of links, or of a base.
pub fn script_status(fault: ScriptFault) -> Status
    ensures { result ≡ bad_status fault }
{
    match fault {
        ScriptFault::Memory => Status::Memory,
        ScriptFault::BadLine(line) => Status::BadScript(line),
    }
}

/// How the program ends where a script of buffers is not played to its end.
pub fn buffers_status(fault: ModeFault) -> Status
    ensures { result ≡ buffers_status fault }
{
    match fault {
        ModeFault::Memory => Status::Memory,
        ModeFault::BadLine(line) => Status::BadScript(line),
        ModeFault::Spent => Status::Spent,
    }
}
