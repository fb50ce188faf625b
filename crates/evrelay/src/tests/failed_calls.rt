// What a run comes to over a port of which one call fails. After a failed poll or accept no call is made, and standard error has the
// last entries; another failed call frees its side, and the run goes well.
use crate::tests::{Owed, comes_to, port_of};
use script_port::{FailPort, PortCall};
use std::alloc::AllocGlobal;
use std::sync::Wait;
use std::test::Fail;

/// A target that is connected in the second turn. Both ways end by themselves.
const LATE_TARGET: &str =
    "at 0\nopen wait\nat 1\nconn 0 ok\nr 0 in 474554\neof 0 in\nw 0 in all\nw 0 out all\n\
     at 2\nr 0 out 323030\neof 0 out\nat 3\n";

/// How many links are asked for, which call of which kind fails, and what the run comes to. Where fewer such calls are made none fails.
const FAILING: &[(&str, PortCall, u64, Owed)] = &[
    (
        "1",
        PortCall::Poll,
        1,
        (
            5,
            "done 0 open 0 gone 0\n",
            "turn 0\npoll none\npollfail\npoll fault\n",
        ),
    ),
    (
        "1",
        PortCall::Poll,
        2,
        (
            5,
            "link 0 open in 0 0 out 0 0\ndone 0 open 1 gone 0\n",
            "turn 0\npoll none\nopen 0 wait\nturn 1\npoll none\nwant 0 in r\nwant 0 out w\npollfail\npoll fault\n",
        ),
    ),
    (
        "1",
        PortCall::Poll,
        3,
        (
            5,
            "link 0 open in 3 0 out 0 0\ndone 0 open 1 gone 0\n",
            "turn 0\npoll none\nopen 0 wait\nturn 1\npoll none\nwant 0 in r\nwant 0 out w\nready 0 in r\nready 0 out w\n\
             read 0 in 16384 got 3\nconn 0 out ok\nturn 2\npoll none\nwant 0 in r\nwant 0 out rw\npollfail\npoll fault\n",
        ),
    ),
    (
        "1",
        PortCall::Poll,
        4,
        (
            5,
            "link 0 open in 3 0 out 3 3\ndone 0 open 1 gone 0\n",
            "turn 0\npoll none\nopen 0 wait\nturn 1\npoll none\nwant 0 in r\nwant 0 out w\nready 0 in r\nready 0 out w\n\
             read 0 in 16384 got 3\nconn 0 out ok\nturn 2\npoll none\nwant 0 in r\nwant 0 out rw\nready 0 in r\n\
             ready 0 out rw\nread 0 in 16384 end\nread 0 out 16384 got 3\nwrite 0 out 3 took 3\nclosewrite 0 out\nturn 3\n\
             poll none\nwant 0 in w\nwant 0 out r\npollfail\npoll fault\n",
        ),
    ),
    (
        "1",
        PortCall::Accept,
        1,
        (
            9,
            "done 0 open 0 gone 0\n",
            "turn 0\npoll none\nopen fault\n",
        ),
    ),
    (
        "2",
        PortCall::Accept,
        2,
        (
            9,
            "link 0 open in 0 0 out 0 0\ndone 0 open 1 gone 0\n",
            "turn 0\npoll none\nopen 0 wait\nopen fault\n",
        ),
    ),
    (
        "1",
        PortCall::Accept,
        3,
        (0, "link 0 done in 3 3 out 3 3\ndone 1 open 0 gone 0\n", ""),
    ),
    (
        "1",
        PortCall::Accept,
        4,
        (0, "link 0 done in 3 3 out 3 3\ndone 1 open 0 gone 0\n", ""),
    ),
    (
        "1",
        PortCall::ConnectState,
        1,
        (0, "link 0 gone in 3 0 out 0 0\ndone 0 open 0 gone 1\n", ""),
    ),
    (
        "1",
        PortCall::ConnectState,
        2,
        (0, "link 0 done in 3 3 out 3 3\ndone 1 open 0 gone 0\n", ""),
    ),
    (
        "1",
        PortCall::ConnectState,
        3,
        (0, "link 0 done in 3 3 out 3 3\ndone 1 open 0 gone 0\n", ""),
    ),
    (
        "1",
        PortCall::ConnectState,
        4,
        (0, "link 0 done in 3 3 out 3 3\ndone 1 open 0 gone 0\n", ""),
    ),
    (
        "1",
        PortCall::Read,
        1,
        (0, "link 0 gone in 0 0 out 0 0\ndone 0 open 0 gone 1\n", ""),
    ),
    (
        "1",
        PortCall::Read,
        2,
        (0, "link 0 gone in 3 0 out 3 3\ndone 0 open 0 gone 1\n", ""),
    ),
    (
        "1",
        PortCall::Read,
        3,
        (0, "link 0 gone in 3 0 out 0 0\ndone 0 open 0 gone 1\n", ""),
    ),
    (
        "1",
        PortCall::Read,
        4,
        (0, "link 0 gone in 3 3 out 3 3\ndone 0 open 0 gone 1\n", ""),
    ),
    (
        "1",
        PortCall::Write,
        1,
        (0, "link 0 gone in 3 3 out 3 0\ndone 0 open 0 gone 1\n", ""),
    ),
    (
        "1",
        PortCall::Write,
        2,
        (0, "link 0 gone in 3 0 out 3 3\ndone 0 open 0 gone 1\n", ""),
    ),
    (
        "1",
        PortCall::Write,
        3,
        (0, "link 0 done in 3 3 out 3 3\ndone 1 open 0 gone 0\n", ""),
    ),
    (
        "1",
        PortCall::Write,
        4,
        (0, "link 0 done in 3 3 out 3 3\ndone 1 open 0 gone 0\n", ""),
    ),
];

/// The place of the first run that comes to something else.
fn first_other<R: Wait + AllocGlobal>(rt: &R) -> Result<Option<usize>, Fail> {
    for (place, (links, kind, call, owed)) in FAILING.iter().enumerate() {
        let mut port = FailPort::new(port_of(rt.alloc(), LATE_TARGET)?, *kind, *call);
        if !comes_to(rt, links, &mut port, 0, owed)? {
            return Ok(Some(place));
        }
    }
    Ok(None)
}

#[test]
fn each_failed_call_comes_to_its_report(rt: HostRuntime) -> Result<(), Fail> {
    assert_eq!(rt; first_other(&rt)?, None);
    Ok(())
}
