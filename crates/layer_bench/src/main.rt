//! A fixed amount of work on one layer, by one word, for `bench/layers.sh` to time and `bench/calls.sh` to count: what it
//! prints says how much was done.
//! Without a word it does a little of each.
#![tactic(auto)]

mod buffers;
mod due;
mod events;
mod idle;
mod links;
mod passing;
mod timers;

use buffers::{Use, rounds_of_pieces, rounds_of_references};
use due::rounds_of_due;
use events::rounds_of_events;
use idle::idle_bevs;
use links::idle_turns;
use passing::{copied, passed};
use script_text::filter_named;
use std::alloc::Global;
use std::env;
use std::io::Print;
use timers::rounds_of_timers;

/// How many pieces are passed, owners are due and bufferevents are made without a word, and with one.
const LITTLE: u32 = 16;

const MUCH: u32 = 65_536;

/// Over how many links turns are made in which nothing comes.
const IDLE_LINKS: u32 = 1_024;

/// How many timers are added in a round.
const TIMERS: u64 = 100_000;

fn main(rt: HostRuntime) -> anyhow::Result<()> {
    let alloc = rt.alloc();
    let words = env::args(&rt)?.skip(1).collect::<Vec<String>>(alloc)?;
    match words.first() {
        Some(word) => one(&rt, alloc, word.as_str(), MUCH),
        None => {
            for word in [
                "copy",
                "none",
                "to-crlf",
                "to-lf",
                "hex-out",
                "hex-in",
                "due",
                "idle",
                "links",
                "timers",
                "add",
                "drain",
                "exchange",
                "move",
                "reference",
                "events",
                "common",
            ] {
                one(&rt, alloc, word, LITTLE)?;
            }
            Ok(())
        }
    }
}

/// The work of a word.
fn one(rt: &impl Print, alloc: Global, word: &str, amount: u32) -> anyhow::Result<()> {
    let done = match word {
        "copy" => copied(alloc, amount)?,
        "due" => rounds_of_due(alloc, 10_000, amount / 16)?,
        "idle" => idle_bevs(alloc, amount)?,
        "links" => idle_turns(alloc, IDLE_LINKS, amount)?,
        "timers" => rounds_of_timers(alloc, TIMERS, (amount / 1_024).max(1))?,
        "add" => rounds_of_pieces(alloc, Use::Add, amount)?,
        "drain" => rounds_of_pieces(alloc, Use::Drain, amount)?,
        "exchange" => rounds_of_pieces(alloc, Use::Exchange, amount)?,
        "move" => rounds_of_pieces(alloc, Use::Move, amount)?,
        "reference" => rounds_of_references(alloc, amount)?,
        "events" => rounds_of_events(alloc, false, amount)?,
        "common" => rounds_of_events(alloc, true, amount)?,
        _ => match filter_named(word.as_bytes()) {
            Some(kind) => passed(alloc, kind, amount)?,
            None => 0,
        },
    };
    println!(rt; "{word} {done}")?;
    Ok(())
}
