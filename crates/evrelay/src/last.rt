// The last entries of a run: words of wants, and two halves behind them, so that an entry is put at the cost of a copy of it.
ghost use Rattle.std.specs.Prelude.{◌≡◌, ◌<◌, ◌≤◌, ◌∷◌, [], ◌++◌, ℕ, IfOk, length, map, vec_len, vec_capacity};
ghost use Rattle.ev_port.specs.Table.{named};
ghost use Rattle.script_text.specs.Room.{HasRoom, GrewBy, room_of};
ghost use Rattle.evrelay.specs.RingText.{ring_text};
ghost use Rattle.evrelay.specs.RingWants.{AreOfSides, keep_last, kept_last, want_entry, word_wants, word_entries};

use crate::lines::put_lines;
use crate::want_lines::{put_want_words, want_entry};
use ev_port::{WantTable, WantWord};
use ev_types::{Entry, NoMemory};
use std::alloc::Global;
use std::mem::swap;

/// How many entries are kept.
pub(crate) const KEPT: usize = 64;

/// The last 64 entries, and those before them that are still there. First come the wants of words, the last word's first, where
/// a poll had 64 wants or more; `many` is how many those are. Behind them come two halves, each with room for 64; where the newer
/// one is full it becomes the older one, and the words are gone. All their room is made at once.
///
/// Own.
#[derive(Drop)]
pub(crate) struct LastEntries {
    words: Vec<WantWord>,
    many: usize,
    older: Vec<Entry>,
    newer: Vec<Entry>,
    ghost words_room: { 64 ≤ vec_capacity words },
    ghost words_sides: { AreOfSides words.items },
    ghost counted: { many ≡ length (word_wants words.items) },
    ghost few: { many < 128 },
    ghost older_short: { vec_len older ≤ 64 },
    ghost newer_short: { vec_len newer ≤ 64 },
    ghost older_room: { 64 ≤ vec_capacity older },
    ghost newer_room: { 64 ≤ vec_capacity newer },
}

impl LastEntries {
    /// No entry. It is refused for want of memory alone.
    pub(crate) fn new(alloc: Global) -> Result<LastEntries, NoMemory>
        ensures { IfOk result (λ last. kept_last last.words.items last.older.items last.newer.items ≡ []) }
    {
        Ok(LastEntries {
            words: Vec::with_capacity(alloc, KEPT)?,
            many: 0,
            older: Vec::with_capacity(alloc, KEPT)?,
            newer: Vec::with_capacity(alloc, KEPT)?,
        })
    }

    /// One entry more.
    pub(crate) fn push(&mut self, entry: Entry)
        ensures { kept_last self.new.words.items self.new.older.items self.new.newer.items
            ≡ keep_last 64 (kept_last self.old.words.items self.old.older.items self.old.newer.items ++ entry ∷ []) }
    {
        if self.newer.len() >= KEPT {
            swap(&mut self.older, &mut self.newer);
            self.newer.clear();
            self.words.clear();
            self.many = 0;
        }
        self.newer.push_reserved(entry);
    }

    /// The wants of a table. Where they are 64 or more only the words of the last are copied.
    pub(crate) fn push_wants(&mut self, wants: &WantTable)
        ensures { kept_last self.new.words.items self.new.older.items self.new.newer.items
            ≡ keep_last 64 (kept_last self.old.words.items self.old.older.items self.old.newer.items ++ map want_entry (named wants.now)) }
    {
        if wants.count() >= KEPT {
            self.many = take_words(&mut self.words, wants);
            self.older.clear();
            self.newer.clear();
        } else {
            self.push_each(wants);
        }
    }

    fn push_each(&mut self, wants: &WantTable)
        ensures { kept_last self.new.words.items self.new.older.items self.new.newer.items
            ≡ keep_last 64 (kept_last self.old.words.items self.old.older.items self.old.newer.items ++ map want_entry (named wants.now)) }
    {
        let mut from = 0;
        while let Some(want) = wants.next_wanted(from) {
            self.push(want_entry(want));
            from = want.side.number() + 1;
        }
    }

    /// Appends the lines of the last 64 entries, the oldest first.
    pub(crate) fn put_text(&self, text: &mut Vec<u8>)
        requires { HasRoom text.old (room_of 64 0) }
        ensures { GrewBy (ring_text (kept_last self.now.words.items self.now.older.items self.now.newer.items)) (room_of 64 0)
            text.old text.new }
    {
        let passed = (self.many + self.older.len() + self.newer.len()).saturating_sub(KEPT);
        let left = put_want_words(text, &self.words, passed);
        let (_, older) = self.older.split_at(left);
        put_lines(text, older);
        put_lines(text, &self.newer);
    }
}

/// Leaves the last words of a table that has 64 wants or more, the last one first, as many as have 64 wants, and answers how many
/// they have.
fn take_words(words: &mut Vec<WantWord>, wants: &WantTable) -> usize
    requires many { 64 ≤ length (named wants.now) }
    requires room { 64 ≤ vec_capacity words.old }
    ensures counted { result ≡ length (word_wants words.new.items) }
    ensures few { result < 128 }
    ensures sides { AreOfSides words.new.items }
    ensures last { keep_last 64 (word_entries words.new.items) ≡ keep_last 64 (map want_entry (named wants.now)) }
    ensures room { 64 ≤ vec_capacity words.new }
{
    words.clear();
    let mut before = 2 * (wants.links() as usize) / 64 + 1;
    let mut count = 0;
    while count < KEPT {
        let Some(word) = wants.previous_word(before) else {
            return count;
        };
        words.push_reserved(word);
        count += word.count();
        before = word.at;
    }
    count
}
