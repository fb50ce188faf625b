// Callbacks that act on the world: one sends back all that it reads and then frees itself, one frees its neighbour.
ghost use Rattle.std.specs.Prelude.{◌≡◌, None, MatchOption, ⊤, []};
ghost use Rattle.bev_world.specs.Batches.{IsIdle};
ghost use Rattle.bev_world.specs.Runs.{IsLevel};
ghost use Rattle.bev_world.specs.Went.{Went};

use bev_world::{BevId, Callback, Dir, NoMemory, Roster, Why, World, WorldFault, run_due};
use std::alloc::Global;
use std::io::Print;

/// Sends back what it reads, and frees itself once the stream has ended and all of it was given.
#[derive(Drop)]
struct Echo;

impl Callback for Echo {
    ghost heard = { λ _. None };

    fn call(&mut self, world: &mut World, id: BevId, why: Why) -> Result<(), NoMemory> {
        match why {
            Why::Read => send_back(world, id),
            Why::Write | Why::Event(_) => free_if_over(world, id),
            _ => Ok(()),
        }
    }
}

/// Frees its neighbour, whatever it hears.
#[derive(Drop)]
struct Jealous {
    neighbour: BevId,
}

impl Callback for Jealous {
    ghost heard = { λ _. None };

    fn call(&mut self, world: &mut World, _id: BevId, _why: Why) -> Result<(), NoMemory> {
        free(world, self.neighbour)
    }
}

// What was read goes to the end of the output.
fn send_back(world: &mut World, id: BevId) -> Result<(), NoMemory>
    ensures { Went world.old world.new }
{
    match world.move_input(id, id) {
        Err(WorldFault::Memory) => Err(NoMemory),
        _ => Ok(()),
    }
}

// It is over where the stream failed, or has ended and nothing waits to be given. What waits is given first: `took` makes the
// reason of writing due, and that leads here again.
fn free_if_over(world: &mut World, id: BevId) -> Result<(), NoMemory>
    ensures { Went world.old world.new }
{
    match world.state(id) {
        Some(state) if state.failed || state.ended && state.output == 0 => free(world, id),
        _ => Ok(()),
    }
}

// One that is gone already is as good as freed.
fn free(world: &mut World, id: BevId) -> Result<(), NoMemory>
    ensures { Went world.old world.new }
{
    let _freed = world.free(id);
    Ok(())
}

/// Gives a bufferevent its box, where it was given none.
fn seat(roster: &mut Roster, id: BevId, call: Box<dyn Callback>) -> Result<(), NoMemory>
    requires kept { IsLevel roster.old }
    requires unheard { MatchOption (heard call) ⊤ (λ xs. xs ≡ []) }
    ensures { IsLevel roster.new }
{
    if roster.is_given(id) {
        return Ok(());
    }
    roster.give(id, call)
}

/// An echo whose stream has ended, and a bufferevent that is freed while its callback is due.
pub fn callbacks_that_free(rt: &impl Print, alloc: Global) -> anyhow::Result<()> {
    let echo = Box::new(alloc, Echo)?;
    let other_echo = Box::new(alloc, Echo)?;
    let jealous = Box::new(
        alloc,
        Jealous {
            neighbour: BevId(2),
        },
    )?;
    let mut world = World::new(alloc);
    let mut roster = Roster::new(alloc);
    let answer = one_run(rt, &mut world, &mut roster, echo, other_echo, jealous);
    drop(roster);
    drop(world);
    answer
}

// The world and the boxes are lent, so that they are let go at one place.
fn one_run(
    rt: &impl Print,
    world: &mut World,
    roster: &mut Roster,
    echo: Box<dyn Callback>,
    other_echo: Box<dyn Callback>,
    jealous: Box<dyn Callback>,
) -> anyhow::Result<()>
    requires kept { IsLevel roster.old }
    requires idle { IsIdle world.old }
    requires echo { MatchOption (heard echo) ⊤ (λ xs. xs ≡ []) }
    requires other_echo { MatchOption (heard other_echo) ⊤ (λ xs. xs ≡ []) }
    requires jealous { MatchOption (heard jealous) ⊤ (λ xs. xs ≡ []) }
{
    let client = fed(world, b"hello")?;
    end(world, client)?;
    let before = fed(world, b"!")?;
    let neighbour = fed(world, b"?")?;
    seat(roster, client, echo)?;
    seat(roster, before, jealous)?;
    seat(roster, neighbour, other_echo)?;
    let calls = run_due(world, roster)?;
    let mut sent = *b"hello";
    let count = world.peek_output(client, &mut sent);
    println!(rt; "{calls} calls of 4 reasons, {count} bytes are sent back")?;
    println!(rt; "the neighbour is live: {}", world.is_live(neighbour))?;
    println!(rt; "the client is live: {}", world.is_live(client))?;
    Ok(())
}

// The socket met the end of its stream.
fn end(world: &mut World, id: BevId) -> Result<(), WorldFault>
    requires { IsIdle world.old }
    ensures { IsIdle world.new }
{
    world.ended(id, Dir::Read)?;
    Ok(())
}

// A socket that brought bytes.
fn fed(world: &mut World, bytes: &[u8]) -> Result<BevId, WorldFault>
    requires { IsIdle world.old }
    ensures { IsIdle world.new }
{
    let id = world.new_socket()?;
    world.feed(id, bytes, 1000)?;
    Ok(id)
}
