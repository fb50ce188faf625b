// What the boxes of callbacks do to a world. The world and the roster are lent, so that each is let go at one place.
ghost use Rattle.std.specs.Prelude.{◌≡◌, ⊤, [], MatchOption};
ghost use Rattle.bev_world.specs.Batches.{IsIdle};
ghost use Rattle.bev_world.specs.Runs.{IsLevel};

use bev_world::{BevId, Callback, Dir, NoMemory, Roster, Why, World, WorldFault, run_due};
use std::alloc::Global;
use std::test::Fail;

/// Frees two bufferevents, and notes in the output of a third that it was called.
#[derive(Drop)]
struct Freeing {
    heard: Vec<Why>,
    first: BevId,
    second: BevId,
    notes: BevId,
    mark: u8,
}

impl Callback for Freeing {
    ghost use Rattle.std.specs.Prelude.{Some};

    ghost heard = { λ f. Some f.heard.items };

    fn call(&mut self, world: &mut World, _id: BevId, why: Why) -> Result<(), NoMemory> {
        self.heard.push(why)?;
        let _first = world.free(self.first);
        let _second = world.free(self.second);
        let _noted = world.write(self.notes, &[self.mark]);
        Ok(())
    }
}

fn box_of(alloc: Global, frees: [BevId; 2], notes: BevId, mark: u8) -> Freeing
    ensures { result.heard.items ≡ [] }
{
    Freeing {
        heard: Vec::new(alloc),
        first: frees[0],
        second: frees[1],
        notes,
        mark,
    }
}

/// Gives a bufferevent its box, where it was given none.
fn seat(roster: &mut Roster, id: BevId, call: Box<dyn Callback>) -> Result<(), NoMemory>
    requires kept { IsLevel roster.old }
    requires unheard { MatchOption (heard call) ⊤ (λ xs. xs ≡ []) }
    ensures { IsLevel roster.new }
{
    if roster.is_given(id) {
        return Ok(());
    }
    roster.give(id, call)
}

fn socket(world: &mut World) -> Result<BevId, WorldFault>
    requires { IsIdle world.old }
    ensures { IsIdle world.new }
{
    world.new_socket()
}

fn trigger(world: &mut World, id: BevId) -> Result<(), WorldFault>
    requires { IsIdle world.old }
    ensures { IsIdle world.new }
{
    world.trigger(id, Dir::Read)
}

/// A socket for notes, and three that are due.
fn three_due(world: &mut World) -> Result<[BevId; 4], WorldFault>
    requires { IsIdle world.old }
    ensures { IsIdle world.new }
{
    let ids = [
        socket(world)?,
        socket(world)?,
        socket(world)?,
        socket(world)?,
    ];
    trigger(world, ids[1])?;
    trigger(world, ids[2])?;
    trigger(world, ids[3])?;
    Ok(ids)
}

/// How many boxes were called in a first and in a second run, the notes, and whether the third is live.
fn runs_of_three(
    world: &mut World,
    roster: &mut Roster,
    first: Box<dyn Callback>,
    second: Box<dyn Callback>,
    third: Box<dyn Callback>,
) -> Result<(u32, u32, [u8; 4], bool), WorldFault>
    requires idle { IsIdle world.old }
    requires kept { IsLevel roster.old }
    requires first { MatchOption (heard first) ⊤ (λ xs. xs ≡ []) }
    requires second { MatchOption (heard second) ⊤ (λ xs. xs ≡ []) }
    requires third { MatchOption (heard third) ⊤ (λ xs. xs ≡ []) }
{
    let [notes, one, two, three] = three_due(world)?;
    seat(roster, one, first)?;
    seat(roster, two, second)?;
    seat(roster, three, third)?;
    let called = run_due(world, roster)?;
    let again = run_due(world, roster)?;
    let mut noted = *b"....";
    let _count = world.peek_output(notes, &mut noted);
    Ok((called, again, noted, world.is_live(three)))
}

/// Identifiers as they are made: for notes, and three that are due.
const NOTES: BevId = BevId(0);

const ONE: BevId = BevId(1);

const THREE: BevId = BevId(3);

#[test]
fn a_box_frees_itself_and_another_that_is_due(rt: HostRuntime) -> Result<(), Fail> {
    let first = Box::new(rt.alloc(), box_of(rt.alloc(), [ONE, THREE], NOTES, b'1'))?;
    let second = Box::new(rt.alloc(), box_of(rt.alloc(), [ONE, ONE], NOTES, b'2'))?;
    let third = Box::new(rt.alloc(), box_of(rt.alloc(), [ONE, ONE], NOTES, b'3'))?;
    let mut world = World::new(rt.alloc());
    let mut roster = Roster::new(rt.alloc());
    let answer = runs_of_three(&mut world, &mut roster, first, second, third);
    drop(roster);
    drop(world);
    assert_eq!(rt; answer, Ok((2, 0, *b"12..", false)));
    Ok(())
}
