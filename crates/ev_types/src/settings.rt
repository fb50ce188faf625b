// The settings of a run, and what each side gets of them as its link opens.
ghost use Rattle.std.specs.Prelude.{◌≡◌};
ghost use Rattle.ev_types.specs.Usual.{no_marks, no_timeouts, usual};

use crate::filter::FilterKind;
use token_bucket::LimitCfg;

/// Marks of a side, in bytes. A high mark of 0 is none.
///
/// Libevent: event2/bufferevent.h, `bufferevent_setwatermark`; Bufferevents: concepts and basics.
#[derive(Clone, Copy, Debug, PartialEq, Eq)]
pub struct Marks {
    /// Reading makes the side due once its input is at least as long.
    pub read_low: u64,
    /// Reading stops while the input is at least as long. 0 stands for 16,384.
    pub read_high: u64,
    /// Writing makes the side due once its output is at most as long.
    pub write_low: u64,
    /// The direction to the side is held once so many bytes wait for its end. 0 stands for the hold mark of the run.
    pub write_high: u64,
}

impl Marks {
    /// All 0. Constant cost.
    pub fn none() -> Marks
        ensures { result ≡ no_marks }
    {
        Marks {
            read_low: 0,
            read_high: 0,
            write_low: 0,
            write_high: 0,
        }
    }
}

/// Timeouts of a side, in milliseconds. 0 is none.
///
/// Libevent: event2/bufferevent.h, `bufferevent_set_timeouts`; Bufferevents: concepts and basics.
#[derive(Clone, Copy, Debug, PartialEq, Eq)]
pub struct Timeouts {
    pub read_ms: u64,
    pub write_ms: u64,
}

impl Timeouts {
    /// Both 0. Constant cost.
    pub fn none() -> Timeouts
        ensures { result ≡ no_timeouts }
    {
        Timeouts {
            read_ms: 0,
            write_ms: 0,
        }
    }
}

/// What a run is started with: its hold mark in bytes, the filters, limits, marks and timeouts of its In and Out sides, and how many
/// links are opened at most. What is read at a side goes through its read filter, and what is given to it through its write filter. A
/// limit is each side's own; None is no limit. Marks are at most 2^24, timeouts at most 2^40 ms; nothing else is asked of them.
///
/// Own; the hold mark is that of libevent's sample le-proxy.
#[derive(Clone, Copy, Debug, PartialEq, Eq)]
pub struct Settings {
    pub hold: u64,
    pub in_read: FilterKind,
    pub in_write: FilterKind,
    pub out_read: FilterKind,
    pub out_write: FilterKind,
    pub in_rate: Option<LimitCfg>,
    pub out_rate: Option<LimitCfg>,
    pub in_marks: Marks,
    pub out_marks: Marks,
    pub in_timeouts: Timeouts,
    pub out_timeouts: Timeouts,
    pub links: u32,
}

impl Settings {
    /// A hold mark of 524,288 bytes, no filters, limits, marks and timeouts, and 256 links. Takes no memory; constant cost.
    pub fn usual() -> Settings
        ensures { result ≡ usual }
    {
        Settings {
            hold: 524_288,
            in_read: FilterKind::None,
            in_write: FilterKind::None,
            out_read: FilterKind::None,
            out_write: FilterKind::None,
            in_rate: None,
            out_rate: None,
            in_marks: Marks::none(),
            out_marks: Marks::none(),
            in_timeouts: Timeouts::none(),
            out_timeouts: Timeouts::none(),
            links: 256,
        }
    }
}
