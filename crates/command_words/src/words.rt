// The words of a command line, as they come from the system.
ghost use Rattle.std.specs.Prelude.{◌≡◌, Err, IfOk, IfErr, MatchResult, drop};
ghost use Rattle.std.specs.IoError.{error_kind};
ghost use Rattle.std.specs.Vec.Iter.{into_iter_items};
ghost use Rattle.command_words.specs.declared.words.BadWords.TheVariants.{Memory};
ghost use Rattle.command_words.specs.WordsStatus.{words_status, bad_words};

use ev_types::Status;
use std::alloc::{AllocError, AllocGlobal, Global};
use std::env::{Args, Env};
use std::io::ErrorKind;
use std::{env, io};

/// Why the words of a command line can't be read.
///
/// Own.
#[derive(Clone, Copy, Debug, PartialEq, Eq)]
pub enum BadWords {
    /// A word is not UTF-8.
    NotText,
    Memory,
}

impl BadWords {
    /// How the program ends with such words. Constant cost.
    pub fn status(self) -> Status
        ensures { result ≡ words_status self }
    {
        match self {
            BadWords::NotText => Status::Usage,
            BadWords::Memory => Status::Memory,
        }
    }
}

impl From<AllocError> for BadWords {
    ghost from_gives = { λ _ bad. bad ≡ Memory };

    fn from(_: AllocError) -> BadWords {
        BadWords::Memory
    }
}

/// Why words can't be read, by the kind of the error that the system's call was answered. Constant cost.
///
/// Own.
pub fn bad_words(kind: ErrorKind) -> BadWords
    ensures { result ≡ bad_words kind }
{
    match kind {
        ErrorKind::OutOfMemory => BadWords::Memory,
        _ => BadWords::NotText,
    }
}

/// The words after the program's name. Takes memory for them; linear in their bytes.
///
/// Own.
pub fn program_words<R: Env + AllocGlobal>(rt: &R) -> Result<Vec<String>, BadWords> {
    words_behind_name(rt.alloc(), env::args(rt))
}

/// The words behind the first of these; `Memory` where there is none for them, and else why these can't be read.
fn words_behind_name(alloc: Global, args: io::Result<Args>) -> Result<Vec<String>, BadWords>
    ensures words { IfOk args (λ all. MatchResult result (λ words. words.items ≡ drop 1 (into_iter_items all)) (λ bad. bad ≡ Memory)) }
    ensures unread { IfErr args (λ error. result ≡ Err (bad_words (error_kind error))) }
{
    match args {
        Ok(args) => Ok(args.skip(1).collect(alloc)?),
        Err(error) => Err(bad_words(error.kind())),
    }
}
