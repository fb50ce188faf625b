// How often a hook was called.
ghost use Rattle.std.specs.Prelude.{◌≡◌, ◌+◌, ◌^◌, ◌≤◌, IfOk, OnErr, if◌then◌else◌};
ghost use Rattle.ev_types.specs.declared.why.WhyKind.{WhyKind as KindOf};
ghost use Rattle.relay_model.specs.Plans.{kind_of, same_kind};
ghost use Rattle.script_hook.specs.Counts.{count_of};

use ev_types::{NoMemory, Why, WhyKind};

/// The kind of a reason.
pub(crate) fn kind(why: Why) -> WhyKind
    ensures { result ≡ kind_of why }
{
    match why {
        Why::Connected => WhyKind::Connected,
        Why::Read => WhyKind::Read,
        Why::Write => WhyKind::Write,
        Why::Timer => WhyKind::Timer,
        Why::Event(_) => WhyKind::Event,
    }
}

/// How often a hook was called for each kind of reason.
#[derive(Drop)]
pub(crate) struct FireCounts {
    connected: u64,
    read: u64,
    write: u64,
    timer: u64,
    event: u64,
}

/// Counts one more, where that is below 2^64.
fn one_more(count: &mut u64) -> Result<u64, NoMemory>
    ensures more { IfOk result (λ n. (n ≡ count.old + 1) × (count.new ≡ n)) }
    ensures refused { OnErr result ((2 ^ 64 ≤ count.old + 1) × (count.new ≡ count.old)) }
{
    *count = count.checked_add(1).ok_or(NoMemory)?;
    Ok(*count)
}

impl FireCounts {
    /// Of no fire.
    pub(crate) fn new() -> FireCounts
        ensures { (k : KindOf) → count_of result k ≡ 0 }
    {
        FireCounts {
            connected: 0,
            read: 0,
            write: 0,
            timer: 0,
            event: 0,
        }
    }

    /// Counts one fire more for a kind, and answers how many that makes. A count that would be 2^64 is refused, and nothing is counted.
    pub(crate) fn count(&mut self, kind: WhyKind) -> Result<u64, NoMemory>
        ensures count { IfOk result (λ n. n ≡ count_of self.old kind + 1) }
        ensures counted { IfOk result (λ n. (k : KindOf) → count_of self.new k ≡ count_of self.old k +
            (if same_kind kind k then 1 else 0)) }
        ensures refused { OnErr result ((2 ^ 64 ≤ count_of self.old kind + 1) × (self.new ≡ self.old)) }
    {
        match kind {
            WhyKind::Connected => one_more(&mut self.connected),
            WhyKind::Read => one_more(&mut self.read),
            WhyKind::Write => one_more(&mut self.write),
            WhyKind::Timer => one_more(&mut self.timer),
            WhyKind::Event => one_more(&mut self.event),
        }
    }
}
