// A drive over real sockets, in one thread. It fails where its turns don't suffice.
ghost use Rattle.std.specs.Prelude.{◌≡◌, None};
ghost use Rattle.relay_drive.specs.Seats.{AreSeated};

use ev_port::{Addr, Mute, Port, Started};
use mio_port::MioPort;
use relay_drive::{Drive, DriveFault, RateGroups, Seats, Settings};
use std::io;
use std::io::{Read, Write};
use std::net::{Ipv4Addr, Shutdown, SocketAddr, TcpListener, TcpStream};
use std::test::Fail;
use std::time::Duration;

const MOST_TURNS: u32 = 1000;

// What a turn needs. No function here says what it ensures, so that a caller's proof doesn't carry a turn's clauses.
#[derive(Drop)]
struct Run<'a> {
    drive: Drive,
    seats: Seats,
    port: MioPort<'a, HostRuntime>,
    scribe: Mute,
    ghost seated: { drive.kept ≡ None → AreSeated drive.state seats.hooks.items seats.gone.items },
}

impl Run<'_> {
    fn turn(&mut self) -> Result<(), Fail> {
        self.drive
            .turn(&mut self.seats, &mut self.port, &mut self.scribe)?;
        Ok(())
    }

    fn open_a_link(&mut self) -> Result<(), Fail> {
        for _ in 0..MOST_TURNS {
            self.turn()?;
            if self.drive.opened() == 1 {
                return Ok(());
            }
        }
        Err(missed("no link was opened").into())
    }

    fn end_all_links(&mut self) -> Result<(), Fail> {
        for _ in 0..MOST_TURNS {
            self.turn()?;
            if !self.drive.has_open_links() {
                return Ok(());
            }
        }
        Err(missed("a link stayed open").into())
    }
}

// What each end of a link read up to its end.
#[derive(Drop)]
struct Heard {
    client: Vec<u8>,
    target: Vec<u8>,
}

fn missed(words: &str) -> io::Error {
    io::Error::other(words)
}

fn here(port: u16) -> SocketAddr {
    SocketAddr::from((Ipv4Addr::LOCALHOST, port))
}

fn addr_here(port: u16) -> Addr {
    Addr {
        ip: [127, 0, 0, 1],
        port,
    }
}

fn new_run(rt: &HostRuntime) -> Result<Run<'_>, DriveFault> {
    let seats = Seats::new(rt.alloc(), Vec::new(rt.alloc()))?;
    Ok(Run {
        drive: Drive::new(
            rt.alloc(),
            Settings::usual(),
            RateGroups::none(rt.alloc()),
            &seats,
        )?,
        seats,
        port: MioPort::new(rt),
        scribe: Mute::new(),
    })
}

// A client of the port that said all that it has to say.
fn client_of(rt: &HostRuntime, run: &Run<'_>) -> Result<TcpStream, Fail> {
    let at = run.port.local().ok_or(missed("it listens nowhere"))?;
    let mut client = TcpStream::connect(rt, here(at.port))?;
    client.write_all(b"hi")?;
    client.shutdown(Shutdown::Write)?;
    Ok(client)
}

// The far end of the link, which says nothing.
fn far_end(target: &TcpListener) -> Result<TcpStream, Fail> {
    let (far, _from) = target.accept()?;
    far.shutdown(Shutdown::Write)?;
    Ok(far)
}

fn read_all(rt: &HostRuntime, stream: &mut TcpStream) -> Result<Vec<u8>, Fail> {
    stream.set_read_timeout(Some(Duration::from_secs(5)))?;
    let mut bytes = Vec::new(rt.alloc());
    stream.read_to_end(&mut bytes)?;
    Ok(bytes)
}

// Both ends are read while the run still stands: where it goes, its port closes all that it holds.
fn hear_both_ends(rt: &HostRuntime, run: &mut Run<'_>) -> Result<Heard, Fail> {
    let target = TcpListener::bind(rt, here(0))?;
    let to = addr_here(target.local_addr()?.port());
    if run.port.start(addr_here(0), to) != Started::Started {
        return Err(missed("the port didn't start").into());
    }
    let mut client = client_of(rt, run)?;
    run.open_a_link()?;
    let mut far = far_end(&target)?;
    run.end_all_links()?;
    Ok(Heard {
        target: read_all(rt, &mut far)?,
        client: read_all(rt, &mut client)?,
    })
}

// The run is let go at one place: each place where it might go would carry a proof of all that it owns.
#[test]
fn a_drive_hands_bytes_and_both_ends_on(rt: HostRuntime) -> Result<(), Fail> {
    let mut run = new_run(&rt)?;
    let heard = hear_both_ends(&rt, &mut run);
    drop(run);
    let heard = heard?;
    assert_eq!(rt; heard.target.as_slice(), b"hi".as_slice());
    assert!(rt; heard.client.is_empty());
    Ok(())
}
