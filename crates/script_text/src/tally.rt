// What the lines of a script so far say of each link and each end, kept so that no line is looked at again.
ghost use Rattle.std.specs.Prelude.{◌≡◌, ◌≤◌, ◌<◌, ◌+◌, ◌++◌, vec_len, vec_capacity};
ghost use Rattle.script_text.specs.Order.{opened_by};
ghost use Rattle.script_text.specs.Tally.{closed, counted, kept_of};

use crate::TurnLine;

/// Whether the bytes of the end with this number were ended or failed.
pub fn kept(ended: &[bool], end: usize) -> bool
    ensures { result ≡ kept_of ended.now end }
{
    ended.get(end).copied().unwrap_or(false)
}

/// Keeps the link that a line opens, with whether the line says wait, in room that was made before. Takes no memory.
pub fn count_link(links: &mut Vec<bool>, line: &TurnLine)
    requires { vec_len links.old < vec_capacity links.old }
    ensures { links.new.items ≡ links.old.items ++ opened_by line.now }
{
    if let TurnLine::NewLink { wait } = line {
        links.push(*wait).unwrap();
    }
}

/// Keeps what one line more says of the ends, in room that was made before. Takes no memory.
pub fn count_line(ended: &mut Vec<bool>, line: &TurnLine)
    requires { vec_len ended.old + 2 ≤ vec_capacity ended.old }
    ensures { ended.new.items ≡ counted ended.old.items line.now }
{
    match line {
        TurnLine::NewLink { .. } => {
            ended.push(false).unwrap();
            ended.push(false).unwrap();
        }
        TurnLine::Eof(side) => close(ended, side.number()),
        TurnLine::ReadFail(side) => close(ended, side.number()),
        _ => {}
    }
}

/// No bytes may come in behind those of this end.
fn close(ended: &mut Vec<bool>, end: usize)
    ensures { ended.new.items ≡ closed ended.old.items end }
{
    if let Some(end) = ended.get_mut(end) {
        *end = true;
    }
}
