// The laws of streams, each on a function whose contract it is.
ghost use Rattle.ev_port.specs.StreamBytes.{GivenJoins, TakenJoins};

/// What a stream gave in two calls in a row is what it gave in both.
pub fn given_joins()
    ensures { GivenJoins }
{}

/// What a stream took in two calls in a row is what it took in both.
pub fn taken_joins()
    ensures { TakenJoins }
{}
