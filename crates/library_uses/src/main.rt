//! How each crate that is usable alone is used: an example a crate, as its README shows it, proved and run.
#![tactic(auto)]

mod base;
mod bufferevents;
mod callbacks;
mod connections;
mod deadlines;
mod due;
mod filters;
mod idle_links;
mod lent_filter;
mod limited_links;
mod limits;
mod lines;
mod numbers;
mod own_filter;
mod own_port;
mod queues;

use std::alloc::Global;
use std::io::Print;

fn main(rt: HostRuntime) -> anyhow::Result<()> {
    let alloc = rt.alloc();
    deadlines::due_jobs(&rt, alloc)?;
    queues::most_urgent_first(&rt, alloc)?;
    base::a_beat_and_a_signal(&rt, alloc)?;
    connections::idle_connections(&rt, alloc)?;
    limits::two_clients(&rt, alloc)?;
    lines::lines_that_came_in_pieces(&rt, alloc)?;
    bufferevents::back_pressure(&rt, alloc)?;
    filters::line_ends(&rt, alloc)?;
    own_filter::without_zeros(&rt, alloc)?;
    lent_filter::zeros_of_a_socket(&rt, alloc)?;
    due::joined_reasons(&rt, alloc)?;
    callbacks::callbacks_that_free(&rt, alloc)?;
    numbers::busy_jobs(&rt, alloc)?;
    own_port::one_call(&rt, alloc)?;
    idle_links::two_links(&rt, alloc)?;
    limited_links::two_limited_clients(&rt, alloc)?;
    Ok(())
}
