//! The relay's port over real TCP sockets: `MioPort` listens, connects, reads and writes without blocking, and waits for
//! readiness in its polls. What a run makes of the answers stands above.
#![tactic(auto)]

mod acceptor;
mod attempt;
mod check;
mod clock;
mod end;
mod ends;
mod kernel;
mod mio_port;
mod place;
mod ready;
mod scarce;
mod socket;
mod socket_call;
mod socket_log;
mod turn;

pub use mio_port::MioPort;
pub use turn::each_is_read_in_time;
