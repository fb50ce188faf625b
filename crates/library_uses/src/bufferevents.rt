// Bufferevents: the room that a high mark leaves, what a read makes of it, and what the other half of a pair hands over.

use bev_core::{Bev, Dir};
use bev_pair::transfer;
use bev_socket::{room_read, took_read};
use ev_types::Mode;
use std::alloc::Global;
use std::io::Print;

/// A server that takes at most 8 bytes before somebody reads them.
pub fn back_pressure(rt: &impl Print, alloc: Global) -> anyhow::Result<()> {
    let mut server = Bev::new(alloc)?;
    let mut client = Bev::new(alloc)?;
    let answer = hello_world(rt, &mut server, &mut client);
    drop(client);
    drop(server);
    answer
}

// Both ends are lent, so that they are let go at one place.
fn hello_world(rt: &impl Print, server: &mut Bev, client: &mut Bev) -> anyhow::Result<()> {
    server.enable(Dir::Read)?;
    server.set_watermark(Dir::Read, 0, 8)?;
    server.reserve_input(5)?;
    println!(rt; "room for {} bytes", room_read(server, None, None))?;
    took_read(server, b"hello", 1000);
    println!(rt; "room for {} bytes", room_read(server, None, None))?;

    client.write(b" world")?;
    let moved = transfer(client, server, Mode::Normal)?;
    println!(rt;
        "{moved} bytes moved, {} wait at the client",
        client.state().output
    )?;
    Ok(())
}
