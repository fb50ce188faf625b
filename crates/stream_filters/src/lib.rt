//! Filters of a byte stream: each is a function of the whole stream, computed piece by piece up to a limit.
//!
//! The trait, its five filters and one that is chosen when it is made. Buffers are left to others.
#![tactic(auto)]

mod any;
mod crlf_lanes;
mod crlf_put;
mod crlf_table;
mod digits;
mod fault;
mod filters;
mod hex_lanes;
mod hex_parts;
mod knowledge;
mod lf_lanes;
mod lf_put;
mod lf_table;
mod line_end;
mod parts;
mod put;
mod put_before;
mod step;
mod stream_filter;

pub use any::AnyFilter;
pub use ev_types::{FilterKind, Mode};
pub use fault::FilterFault;
pub use filters::{HexIn, HexOut, NoFilter, ToCrlf, ToLf};
pub use step::most_step;
pub use stream_filter::{Step, StreamFilter};
