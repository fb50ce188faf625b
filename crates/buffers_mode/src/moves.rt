// What a line asks of buffers by their numbers, done on them.
ghost use Rattle.std.specs.Prelude.{◌≡◌, ◌<◌, length, map};
ghost use Rattle.buffers_mode.specs.Steps.{shown};
ghost use Rattle.buffers_mode.specs.Played.{Took};
ghost use Rattle.buffers_mode.specs.Run.{own_at, add_buffer_step, remove_buffer_step};

use crate::ModeFault;
use crate::answer::Answer;
use crate::line::Op;
use crate::step::{refused, take_step};
use evbuf::Buffers;
use std::alloc::Global;

/// What is asked of one buffer alone.
pub(crate) fn own_step(
    alloc: Global,
    buffers: &mut Buffers,
    b: usize,
    op: &Op,
) -> Result<Answer, ModeFault>
    requires { b < length buffers.old }
    ensures took { Took result (map shown buffers.new) (own_at (map shown buffers.old) b op.now) }
    ensures count { length buffers.new ≡ length buffers.old }
{
    take_step(alloc, buffers.at(b), op)
}

/// All bytes of a buffer go to the end of another.
pub(crate) fn add_buffer(buffers: &mut Buffers, to: usize, from: usize) -> Result<Answer, ModeFault>
    requires to_there { to < length buffers.old }
    requires from_there { from < length buffers.old }
    ensures took { Took result (map shown buffers.new)
        (add_buffer_step (map shown buffers.old) to from) }
    ensures count { length buffers.new ≡ length buffers.old }
{
    match buffers.move_all(to, from) {
        Ok(()) => Ok(Answer::Done),
        Err(fault) => refused(fault),
    }
}

/// The first n bytes of a buffer go to the end of another.
pub(crate) fn remove_buffer(
    buffers: &mut Buffers,
    from: usize,
    to: usize,
    n: usize,
) -> Result<Answer, ModeFault>
    requires from_there { from < length buffers.old }
    requires to_there { to < length buffers.old }
    ensures took { Took result (map shown buffers.new)
        (remove_buffer_step (map shown buffers.old) from to n) }
    ensures count { length buffers.new ≡ length buffers.old }
{
    match buffers.move_some(from, to, n) {
        Ok(moved) => Ok(Answer::Count(moved)),
        Err(fault) => refused(fault),
    }
}
