use courier_core::{Courier, Message};
use proc_image::Image;
use record_bag::{Bag, Held};
use signal_state::{Own, Sig};
use std::alloc::Global;
use std::test::Fail;
use unix_calls::{Job, Phase};
use unix_names::{Name, NoMemory, Pid, Seq};

fn image(alloc: Global) -> Image {
    Image {
        pid: Pid(2),
        maker: Pid(1),
        script: 0,
        position: 0,
        vars: Seq::new(alloc),
        phase: Phase::Ready,
        own: Own {
            sig: Sig::fresh(),
            taken: 0,
        },
    }
}

/// A courier of process 2 that wants its own record and holds nothing.
fn courier(alloc: Global) -> Result<Courier, NoMemory> {
    Ok(Courier {
        image: image(alloc),
        job: Job::Look,
        wants: Seq::from_slice(alloc, &[Name::V(Pid(2))])?,
        bag: Bag::new(alloc),
    })
}

#[test]
fn the_least_name_comes_first(rt: HostRuntime) -> Result<(), Fail> {
    let mut courier = courier(rt.alloc())?;
    let need = [Name::G(Pid(1)), Name::V(Pid(7))];
    assert!(rt; !courier.has_all(&need));
    assert_eq!(rt; courier.next_want(&need), Name::V(Pid(2)));
    assert!(rt; !courier.must_restart(Name::V(Pid(2))));
    let own = Held::absent(Name::V(Pid(2)));
    assert!(rt; courier.bag.put(Name::V(Pid(2)), own).is_ok());
    assert!(rt; !courier.has_all(&need));
    assert_eq!(rt; courier.next_want(&need), Name::V(Pid(7)));
    let group = Held::absent(Name::G(Pid(2)));
    assert!(rt; courier.bag.put(Name::G(Pid(2)), group).is_ok());
    assert!(rt; courier.must_restart(Name::V(Pid(7))));
    assert!(rt; !courier.must_restart(Name::G(Pid(2))));
    courier.remember(&need)?;
    let wanted = [
        Name::V(Pid(2)),
        Name::G(Pid(1)),
        Name::V(Pid(7)),
        Name::G(Pid(2)),
    ];
    assert_eq!(rt; courier.wants.as_slice(), wanted.as_slice());
    assert!(rt; matches!(Message::Ride(courier), Message::Ride(_)));
    Ok(())
}
