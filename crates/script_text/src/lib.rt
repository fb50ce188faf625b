//! The script of a run as text and as values, and the trace and the report of a run as text. It runs nothing.
#![tactic(auto)]

mod act_text;
mod act_words;
mod entry_text;
mod entry_words;
mod laws;
mod line;
mod members;
mod plan;
mod push;
mod read;
mod room;
mod script;
mod set_words;
mod setting;
mod tally;
mod trace;
mod value_text;
mod value_words;
mod words;
mod write;

pub use entry_text::put_entry;
pub use ev_types::{ByteList, LinkCount, Marks, PlanLine, Settings, Timeouts, TurnLine};
pub use laws::{
    lines_are_parted, numbers_are_decimal, phrase_has_its_words, refused_at_first_bad,
    trace_refused_at_first_bad, written_is_read,
};
pub use members::Members;
pub use push::{put_end, put_last_number, put_number, put_word};
pub use rate_group::GroupSet;
pub use read::read_script;
pub use room::{LINE_ROOM, make_room};
pub use script::{Script, ScriptFault};
pub use trace::read_trace;
pub use value_words::filter_named;
pub use words::{
    MAX_NUMBER, first_piece, hex_bytes, is_plain_text, is_word, number, told, words_of,
};
pub use write::{count_links, write_report, write_trace};
