//! What a relay keeps, and what each step of a turn makes of that, by the buffers, the counts and the running filters alone. The
//! definitions stand in `specs/`, in the order in which `specs/Lib.antt` names them; contracts of the relay's code cite them, and
//! laws that stand beside that code say that they are what the model does.
#![tactic(auto)]
