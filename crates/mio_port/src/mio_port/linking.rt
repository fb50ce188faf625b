// What an accept does but for what every port says of it: a connection that came, one to the target, and what is answered where
// there is none.
ghost use Rattle.std.specs.Prelude.{◌≡◌, ◌≤◌};
ghost use Rattle.ev_port.specs.Faults.{ListenerFaults};
ghost use Rattle.ev_port.specs.Calls.{is_failed_accept};
ghost use Rattle.mio_port.specs.Acceptor.{refused_acceptor, paused_acceptor};
ghost use Rattle.mio_port.specs.EndLeft.{IsNewOut, IsNewPair};
ghost use Rattle.mio_port.specs.Kernels.{watch, watch_of};
ghost use Rattle.mio_port.specs.PortCalls.{HasNoFault, IsNoLink, no_link_answer, ToldPair};
ghost use Rattle.mio_port.specs.PortFaults.{mio_faults};

use super::MioPort;
use crate::acceptor::NoLink;
use crate::end::End;
use crate::ends::{in_end, out_end};
use crate::kernel::Kernel;
use ev_port::Accepted;
use std::alloc::AllocGlobal;
use std::net::{Net, SocketAddr};
use std::time::Clock;

/// For so many milliseconds no link is asked for after the system had no descriptor or no memory for one, unless an end
/// is closed sooner.
const SCARCE_PAUSE: u64 = 100;

impl<R: Net + Clock + AllocGlobal> MioPort<'_, R> {
    fn pause(&mut self)
        ensures faults { self.new.acceptor.faults ≡ self.old.acceptor.faults }
        ensures polling { self.new.polling_faults ≡ self.old.polling_faults }
        ensures paused { self.new.acceptor ≡ paused_acceptor self.old.acceptor self.new.clock.last }
        ensures kernel { self.new.kernel ≡ self.old.kernel }
        ensures steady { self.old.clock.last ≤ self.new.clock.last }
        ensures ends { self.new.ends ≡ self.old.ends }
        ensures turn { self.new.turn ≡ self.old.turn }
    {
        let time = self.clock.read(self.rt);
        self.acceptor.pause(time.saturating_add(SCARCE_PAUSE));
    }

    // Asks for a connection only while a descriptor is kept for its other end.
    pub(super) fn pair(&mut self, link: u32) -> Result<(End, End), NoLink>
        ensures pair { HasNoFault result }
        ensures made { IsNewPair link self.old.acceptor.target result }
        ensures why { ToldPair self.old.kernel self.old.acceptor self.new.kernel result }
        ensures clock { self.new.clock ≡ self.old.clock }
        ensures ends { self.new.ends ≡ self.old.ends }
        ensures turn { self.new.turn ≡ self.old.turn }
        ensures acceptor { self.new.acceptor ≡ self.old.acceptor }
        ensures kernel { watch_of self.new.kernel ≡ watch_of self.old.kernel }
        ensures polling { self.new.polling_faults ≡ self.old.polling_faults }
    {
        let Some(kernel) = &mut self.kernel else {
            return Err(NoLink::NoneWaits);
        };
        let kept = kernel.keep_spare();
        kernel.link_of(kept)?;
        let socket = self.acceptor.ask(kernel)?;
        let target = self.acceptor.target();
        let inside = kernel.end(socket, in_end(link).number());
        let inside = kernel.link_of(inside)?;
        let number = out_end(link).number();
        Ok((inside, outside(self.rt, kernel, target, number)))
    }

    // No link is made.
    pub(super) fn refuse(&mut self, why: NoLink) -> Accepted
        ensures cause { ListenerFaults (mio_faults self.old) (mio_faults self.new) (is_failed_accept result) }
        ensures none { IsNoLink result }
        ensures answer { result ≡ no_link_answer why }
        ensures listener { self.new.acceptor ≡ refused_acceptor self.old.acceptor why self.new.clock.last }
        ensures kernel { self.new.kernel ≡ self.old.kernel }
        ensures steady { self.old.clock.last ≤ self.new.clock.last }
        ensures ends { self.new.ends ≡ self.old.ends }
        ensures turn { self.new.turn ≡ self.old.turn }
    {
        match why {
            NoLink::NoneWaits => self.acceptor.ran_out(),
            NoLink::Again => {}
            NoLink::Scarce => self.pause(),
            NoLink::Failed => {
                self.acceptor.count_fault();
                return Accepted::Failed;
            }
        }
        Accepted::NotYet
    }
}

// A connection to the target that is begun, or an end that was refused.
fn outside<R: Net>(rt: &R, kernel: &mut Kernel, target: Option<SocketAddr>, number: usize) -> End
    ensures faultless { result.faults ≡ 0 }
    ensures made { IsNewOut number target result }
    ensures rest { watch kernel.new ≡ watch kernel.old }
    ensures log { kernel.new.log ≡ kernel.old.log }
{
    let Some(target) = target else {
        return End::refused();
    };
    let Ok(socket) = kernel.connect(rt, target) else {
        return End::refused();
    };
    match kernel.end(socket, number) {
        Ok(end) => end,
        Err(_) => End::refused(),
    }
}
