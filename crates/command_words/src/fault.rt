// Why words are not taken.
ghost use Rattle.std.specs.Prelude.{◌≡◌, ◌≢◌};
ghost use Rattle.clap.specs.Values.{kind_of};
ghost use Rattle.clap.specs.declared.error.kind.ErrorKind.TheVariants.{OutOfMemory};
ghost use Rattle.command_words.specs.declared.fault.WordsFault.TheVariants.{Usage, Memory};
ghost use Rattle.command_words.specs.WordsStatus.{status_of_words};

use clap::Error;
use clap::error::ErrorKind;
use ev_types::Status;
use std::alloc::AllocError;

/// Why the words of a command line are not taken.
///
/// Own.
#[derive(Clone, Copy, Debug, PartialEq, Eq)]
pub enum WordsFault {
    /// The words are none of the program's.
    Usage,
    /// Memory ran out while the words were read.
    Memory,
}

impl WordsFault {
    /// How a program ends with such words. Constant cost.
    pub fn status(self) -> Status
        ensures { result ≡ status_of_words self }
    {
        match self {
            WordsFault::Usage => Status::Usage,
            WordsFault::Memory => Status::Memory,
        }
    }
}

impl From<AllocError> for WordsFault {
    ghost from_gives = { λ _ fault. fault ≡ Memory };

    fn from(_: AllocError) -> WordsFault {
        WordsFault::Memory
    }
}

/// What an error of clap's comes to; its text is dropped.
pub fn words_fault(error: Error) -> WordsFault
    ensures usage { result ≡ Usage → kind_of error ≢ OutOfMemory }
    ensures memory { result ≡ Memory → kind_of error ≡ OutOfMemory }
{
    match error.kind() {
        ErrorKind::OutOfMemory => WordsFault::Memory,
        _ => WordsFault::Usage,
    }
}
