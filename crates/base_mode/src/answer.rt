// The text of single answers.
ghost use Rattle.std.specs.Prelude.{◌≡◌, IfOk, string_bytes};
ghost use Rattle.base_mode.specs.Run.{name_of, refused_text, fired_text};
ghost use Rattle.base_mode.specs.Turned.{turn_text, next_text};

use event_base::BaseFault;
use std::alloc::{AllocError, Global};

/// How a refusal is called.
fn name_text(fault: BaseFault) -> &'static str
    ensures { result.now ≡ name_of fault }
{
    match fault {
        BaseFault::Memory => "Memory",
        BaseFault::BadPriority => "BadPriority",
        BaseFault::NoEvent => "NoEvent",
        BaseFault::IsActive => "IsActive",
        BaseFault::Spent => "Spent",
        BaseFault::TooManyDelays => "TooManyDelays",
    }
}

pub fn refusal(alloc: Global, fault: BaseFault) -> Result<String, AllocError>
    ensures { IfOk result (λ t. string_bytes t ≡ refused_text fault) }
{
    let name = name_text(fault);
    format!(in alloc; "refused {name}\n")
}

pub fn fire(alloc: Global, event: u32, flags: u8) -> Result<String, AllocError>
    ensures { IfOk result (λ t. string_bytes t ≡ fired_text event flags) }
{
    let digits = hex::encode(alloc, &[flags])?;
    format!(in alloc; "fired {event} {digits}\n")
}

pub fn turn(alloc: Global, time: u64) -> Result<String, AllocError>
    ensures { IfOk result (λ t. string_bytes t ≡ turn_text time) }
{
    format!(in alloc; "turn {time}\n")
}

pub fn next(alloc: Global, wait: Option<u64>) -> Result<String, AllocError>
    ensures { IfOk result (λ t. string_bytes t ≡ next_text wait) }
{
    match wait {
        Some(ms) => format!(in alloc; "next {ms}\n"),
        None => String::from_str(alloc, "next none\n"),
    }
}
