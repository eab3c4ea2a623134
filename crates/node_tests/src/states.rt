use courier_core::Message;
use node_state::{ReadyQueue, State, Waiting};
use ordered_table::SparseTable;
use proc_image::Image;
use record_table::Slots;
use signal_state::{Own, Sig};
use std::alloc::Global;
use std::test::Fail;
use unix_calls::Phase;
use unix_names::{NoMemory, Pid, Seq};

fn image(alloc: Global, pid: u32, phase: Phase) -> Image {
    Image {
        pid: Pid(pid),
        maker: Pid(999_999),
        script: 0,
        position: 0,
        vars: Seq::new(alloc),
        phase,
        own: Own {
            sig: Sig::fresh(),
            taken: 0,
        },
    }
}

fn state(alloc: Global) -> Result<State, NoMemory> {
    Ok(State {
        id: 0,
        nodes: 2,
        slots: Slots::new(alloc),
        ready: ReadyQueue::new(alloc),
        parked: SparseTable::new(alloc),
        marks: SparseTable::new(alloc),
        serial: 3,
        sent: Seq::from_slice(alloc, &[0, 0])?,
        taken: Seq::from_slice(alloc, &[0, 0])?,
        out: Seq::new(alloc),
    })
}

fn next_pid(queue: &mut ReadyQueue) -> Option<Pid> {
    match queue.pop() {
        Some(Waiting::Image(image)) => Some(image.pid),
        _ => None,
    }
}

#[test]
fn a_push_takes_the_first_that_is_not_stopped(rt: HostRuntime) -> Result<(), Fail> {
    let mut queue = ReadyQueue::new(rt.alloc());
    queue.push(Waiting::Image(image(rt.alloc(), 2, Phase::Stopped)))?;
    queue.push(Waiting::Image(image(rt.alloc(), 3, Phase::Ready)))?;
    queue.push(Waiting::Image(image(rt.alloc(), 4, Phase::Ready)))?;
    assert!(rt; queue.movable() == 2);
    let moved = queue.take_movable()?;
    assert!(rt; queue.movable() == 1);
    assert_eq!(rt; moved.map(|image| image.pid), Some(Pid(3)));
    assert!(rt; !queue.has_image(Pid(3)));
    assert!(rt; queue.has_image(Pid(2)));
    assert_eq!(rt; next_pid(&mut queue), Some(Pid(2)));
    assert!(rt; queue.movable() == 1);
    assert_eq!(rt; next_pid(&mut queue), Some(Pid(4)));
    assert!(rt; queue.is_empty() && queue.movable() == 0);
    Ok(())
}

#[test]
fn a_poke_finds_its_process(rt: HostRuntime) -> Result<(), Fail> {
    let mut state = state(rt.alloc())?;
    state.poke(Pid(2))?;
    state.place(image(rt.alloc(), 2, Phase::Asleep))?;
    state.place(image(rt.alloc(), 3, Phase::Asleep))?;
    assert!(rt; state.ready.has_image(Pid(2)));
    assert!(rt; !state.ready.has_image(Pid(3)));
    state.nudge_all(&[Pid(1_000_002)])?;
    state.post(1, Message::Poke(Pid(5)))?;
    assert_eq!(rt; state.sent.as_slice(), [0, 2].as_slice());
    assert!(rt; state.out.len() == 2);
    Ok(())
}
