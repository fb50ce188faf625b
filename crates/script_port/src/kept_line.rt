// The lines of a script as a port keeps them. Their bytes stand at the ends, so that a line says only how many come in.
ghost use Rattle.std.specs.Prelude.{◌≡◌};
ghost use Rattle.script_port.specs.KeptLines.{kept_line};

use ev_types::{Side, SideId, TurnLine};

/// What a line says to the end that it names.
///
/// Own.
#[derive(Clone, Copy)]
pub(crate) enum EndLine {
    /// It is connected, or can't be. The first such line stands.
    Conn(bool),
    /// So many of the bytes that are still to come come in.
    Pending(usize),
    /// It is ended after its pending bytes.
    Eof,
    /// Its reads fail after its pending bytes.
    ReadFail,
    /// It takes so many bytes more, or any number.
    Take(Option<u64>),
    /// Its writes fail once it takes no more bytes.
    WriteFail,
    /// In this turn the poll marks all that is wanted of it.
    Spur,
}

/// What is kept of a line.
///
/// Own.
#[derive(Clone, Copy)]
pub(crate) enum KeptLine {
    /// The next link that is still to be opened waits to be accepted.
    NewLink,
    /// It says this to an end.
    At(SideId, EndLine),
    /// The poll of this turn fails.
    PollFail,
}

impl KeptLine {
    /// What is kept of this line. Constant.
    pub fn of(line: &TurnLine) -> KeptLine
        ensures { result ≡ kept_line line.now }
    {
        match line {
            TurnLine::NewLink { .. } => KeptLine::NewLink,
            TurnLine::Conn(link, connected) => KeptLine::At(
                SideId {
                    link: *link,
                    side: Side::Out,
                },
                EndLine::Conn(*connected),
            ),
            TurnLine::Pending(end, list) => KeptLine::At(*end, EndLine::Pending(list.bytes.len())),
            TurnLine::Eof(end) => KeptLine::At(*end, EndLine::Eof),
            TurnLine::ReadFail(end) => KeptLine::At(*end, EndLine::ReadFail),
            TurnLine::Take(end, more) => KeptLine::At(*end, EndLine::Take(*more)),
            TurnLine::WriteFail(end) => KeptLine::At(*end, EndLine::WriteFail),
            TurnLine::Spur(end) => KeptLine::At(*end, EndLine::Spur),
            TurnLine::PollFail => KeptLine::PollFail,
        }
    }
}
