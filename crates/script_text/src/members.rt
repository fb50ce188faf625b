// In which groups a script's sides are, as plain values.
ghost use Rattle.std.specs.Prelude.{◌≡◌};
ghost use Rattle.script_text.specs.Given.{no_members};

/// The groups that a script's In and Out sides are in, by number. None is no group.
///
/// Libevent: event2/bufferevent.h, `bufferevent_add_to_rate_limit_group`; Bufferevents: advanced topics.
#[derive(Clone, Copy, Debug, PartialEq, Eq)]
pub struct Members {
    pub in_group: Option<u32>,
    pub out_group: Option<u32>,
}

impl Members {
    /// No group. Takes no memory; constant.
    pub fn none() -> Members
        ensures { result ≡ no_members }
    {
        Members {
            in_group: None,
            out_group: None,
        }
    }
}
