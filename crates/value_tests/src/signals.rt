// Worked examples.
use signal_state::Sig;
use std::test::Fail;
use unix_names::{Act, Errno, SigSet, Signal};

#[test]
fn a_stopped_process_goes_on(rt: HostRuntime) -> Result<(), Fail> {
    let mut sig = Sig::fresh();
    sig.generate_all(&[Signal::Cont, Signal::Tstp, Signal::Chld]);
    let pending = sig.pending;
    assert!(rt; pending.has(Signal::Tstp));
    assert!(rt; !pending.has(Signal::Chld));
    assert!(rt; !sig.due);
    sig.stopped = true;
    sig.generate(Signal::Cont);
    let pending = sig.pending;
    assert!(rt; !pending.has(Signal::Tstp));
    assert!(rt; !sig.is_clear());
    Ok(())
}

#[test]
fn blocked_and_caught(rt: HostRuntime) -> Result<(), Fail> {
    let mut sig = Sig::fresh();
    assert_eq!(rt;
        sig.set_action(Signal::Kill, Act::Ignore),
        Err(Errno::EINVAL)
    );
    assert_eq!(rt; sig.set_action(Signal::Chld, Act::Catch), Ok(()));
    let old = sig.set_mask(SigSet::empty().with(Signal::Chld).with(Signal::Stop));
    assert!(rt; old.is_empty());
    sig.generate(Signal::Chld);
    let pending = sig.pending;
    assert!(rt; pending.has(Signal::Chld));
    assert!(rt; sig.is_clear());
    let child = sig.child();
    let pending = child.pending;
    assert!(rt; pending.is_empty());
    sig.after_exec();
    let mask = sig.mask;
    assert!(rt; mask.has(Signal::Chld) && !mask.has(Signal::Stop));
    sig.set_mask(SigSet::empty());
    assert!(rt; sig.deliverable().has(Signal::Chld));
    Ok(())
}
