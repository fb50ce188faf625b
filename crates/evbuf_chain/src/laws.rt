// Laws of what the calls of a chain do with tickets. They run nothing.
ghost use Rattle.evbuf_chain.specs.Tickets.{OneTicketEach, DrainKeepsTickets, PullupKeepsTickets, MoveKeepsTickets};

/// A law without code: each reference's ticket is handed out once, whether its bytes are drained, pulled up or moved on.
///
/// Own.
pub fn tickets_are_handed_out_once()
    ensures comes_in { OneTicketEach }
    ensures drain { DrainKeepsTickets }
    ensures pullup { PullupKeepsTickets }
    ensures moves { MoveKeepsTickets }
{}
