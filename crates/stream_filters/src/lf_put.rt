// What bytes make without each CR that LF follows, appended block by block.
ghost use Rattle.std.specs.Prelude.{◌≡◌, ◌≤◌, ◌+◌, ◌%◌, ◌++◌, length, vec_len, vec_capacity};
ghost use Rattle.filter_model.specs.Filter.{to_lf};

use crate::lf_lanes::write_lf;
use crate::line_end::{BLOCK, CR};
use crate::put::{put, put_byte};

/// Appends what sixteens of bytes and one behind them make. That one tells of the last before it, and is left out where it is CR.
pub(crate) fn put_lf(src: &[u8], dst: &mut Vec<u8>)
    requires sixteens { length src.now % 16 ≡ 1 }
    requires room { vec_len dst.old + length (to_lf src.now) ≤ vec_capacity dst.old }
    ensures items { dst.new.items ≡ dst.old.items ++ to_lf src.now }
    ensures capacity { vec_capacity dst.old ≤ vec_capacity dst.new }
{
    let mut block = [0; BLOCK + 8];
    let mut at = 0;
    while at + 1 < src.len() {
        let to = (src.len() - 1).min(at + BLOCK);
        let end = write_lf(src, at, to, &mut block);
        put(dst, block.split_at(end).0);
        at = to;
    }
    if src[at] != CR {
        put_byte(dst, src[at]);
    }
}
