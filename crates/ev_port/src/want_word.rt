// What 64 sides want, as the bits of two words. Where the sides' wants are kept is left to the table.
ghost use Rattle.std.specs.Prelude.{◌≡◌, ◌<◌, ◌^◌, length};
ghost use Rattle.ev_port.specs.WantWords.{word_row, word_rows, IsLastWord};

use crate::Want;
use crate::table::side_of;
use number_set::NumberSet;

/// The sides of a word.
pub(crate) const WORD: usize = 64;

/// What the sides of one word want: bit k, the lowest of which is 0, is the side numbered 64 * `at` + k.
///
/// Own.
#[derive(Clone, Copy, Debug, PartialEq, Eq)]
pub struct WantWord {
    pub at: usize,
    pub read: u64,
    pub write: u64,
}

impl WantWord {
    /// How many of its sides want something. Takes no memory; constant cost.
    ///
    /// Own.
    pub fn count(&self) -> usize
        ensures { result ≡ length (word_rows self.now) }
    {
        (self.read | self.write).count_ones() as usize
    }

    /// What one of its sides wants, without marks. Takes no memory; constant cost.
    ///
    /// Own.
    pub fn row(&self, bit: usize) -> Want
        requires within { bit < 64 }
        requires small { self.now.at < 2 ^ 27 }
        ensures { result ≡ word_row self.now bit }
    {
        Want {
            side: side_of(WORD * self.at + bit),
            read: (self.read >> bit) & 1 == 1,
            write: (self.write >> bit) & 1 == 1,
            can_read: false,
            can_write: false,
        }
    }
}

/// The last word before a place of whose sides one wants something.
pub(crate) fn last_word(read: &NumberSet, write: &NumberSet, before: usize) -> Option<WantWord>
    ensures { IsLastWord read.now.has write.now.has before result }
{
    let (at, _) = NumberSet::previous_word_in_either((read, read), (write, write), before)?;
    Some(WantWord {
        at,
        read: read.word(at),
        write: write.word(at),
    })
}
