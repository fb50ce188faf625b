// Laws on what a bucket may owe and what ticks bring to it, each on a function whose contract it is.
ghost use Rattle.relay_model.specs.Refills.{GroupsComeBack, GroupsOweLess, SidesComeBack, SidesOweNothing, TickBringsByte, TwoTicksBring};

/// A bucket that owes nothing holds a byte as a turn begins a tick later.
pub fn a_tick_brings_a_byte()
    ensures { TickBringsByte }
{}

/// A bucket that owes less than so much holds that two ticks later, where a tick brings as much and nothing is moved.
pub fn two_ticks_bring_so_much()
    ensures { TwoTicksBring }
{}

/// With no hooks no bucket of a side is ever overdrawn.
pub fn sides_owe_nothing()
    ensures { SidesOweNothing }
{}

/// With no hooks each bucket of a side holds a byte as a turn begins a tick later.
pub fn sides_come_back()
    ensures { SidesComeBack }
{}

/// Whatever hooks ask and whoever joins, a group's bucket is overdrawn by less than the least share in every state.
pub fn groups_owe_less()
    ensures { GroupsOweLess }
{}

/// A group with a least share whose members moved nothing in a turn isn't suspended as the next one begins, a tick having begun before
/// each.
pub fn groups_come_back()
    ensures { GroupsComeBack }
{}
