// A hook that stops the run: no turn is begun behind its own, and the report is written.
use crate::ring::Ring;
use crate::tests::{BOTH_WAYS, port_of, words};
use ev_port::MemSink;
use ev_types::{Act, PlanLine, Status, WhyKind};
use relay_drive::Hook;
use relay_serve::serve;
use script_hook::ScriptHook;
use std::alloc::{AllocGlobal, Global};
use std::sync::Wait;
use std::test::Fail;

/// The hook of one side, which stops the run at the first read.
fn stopper(alloc: Global) -> Result<Vec<Option<Box<dyn Hook>>>, Fail> {
    let mut hook = ScriptHook::new(alloc);
    hook.plan(&[PlanLine {
        why: WhyKind::Read,
        nth: 1,
        act: Some(Act::Stop),
    }])?;
    let mut hooks: Vec<Option<Box<dyn Hook>>> = Vec::new(alloc);
    hooks.push(Some(Box::new(alloc, hook)?))?;
    Ok(hooks)
}

/// The status of a run with that hook, and whether its report tells what was read up to then.
fn stopped<R: Wait + AllocGlobal>(rt: &R) -> Result<(Status, bool), Fail> {
    let alloc = rt.alloc();
    let words = words(alloc, "1")?;
    let hooks = stopper(alloc)?;
    let mut port = port_of(alloc, BOTH_WAYS)?;
    let mut ring = Ring::new(alloc)?;
    let mut sink = MemSink::new(alloc, 64, Vec::new(alloc));
    let status = serve(rt, alloc, &words, hooks, &mut port, &mut ring, &mut sink);
    let report = b"link 0 open in 3 0 out 0 0\ndone 0 open 1 gone 0\n";
    Ok((status, sink.bytes() == report.as_slice()))
}

#[test]
fn a_hook_stops_the_run(rt: HostRuntime) -> Result<(), Fail> {
    assert_eq!(rt; stopped(&rt)?, (Status::Stopped(0, 2), true));
    Ok(())
}
