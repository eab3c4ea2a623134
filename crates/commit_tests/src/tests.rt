use crate::handing::hand_over;
use crate::tokens::Tokens;
use commit_log::CommitLog;
use std::test::Fail;

#[test]
fn a_take_follows_its_give_and_both_have_places(rt: HostRuntime) -> Result<(), Fail> {
    let (log, mut passes) = CommitLog::<Tokens>::new(rt.alloc(), 2)?;
    let Some(mut taker) = passes.pop() else {
        panic!(rt; "two passes")
    };
    let Some(mut giver) = passes.pop() else {
        panic!(rt; "two passes")
    };
    let (given, taken) = hand_over(&log, &mut giver, &mut taker);
    assert_eq!(rt; given, 0);
    assert_eq!(rt; taken, 1);
    let mut notes = Vec::with_capacity(rt.alloc(), 1)?;
    notes.push(log.note(&mut giver))?;
    passes.push(taker)?;
    passes.push(giver)?;
    assert_eq!(rt; log.close(passes, notes), 2);
    Ok(())
}

#[test]
fn where_nothing_was_committed_there_are_no_places(rt: HostRuntime) -> Result<(), Fail> {
    let (log, passes) = CommitLog::<Tokens>::new(rt.alloc(), 2)?;
    assert_eq!(rt; passes.len(), 2);
    assert_eq!(rt; log.close(passes, Vec::new(rt.alloc())), 0);
    Ok(())
}
