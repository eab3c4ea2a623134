use orphan_rules::{Kin, is_link, is_orphaned, newly_orphaned};
use unix_names::Pid;

fn kin(pid: u32, group: u32, living: bool, parent: u32, parent_group: u32) -> Kin {
    let parent_session = if parent == 1 { Pid(0) } else { Pid(2) };
    Kin {
        pid: Pid(pid),
        group: Pid(group),
        session: Pid(2),
        living,
        parent: Pid(parent),
        parent_group: Pid(parent_group),
        parent_session,
    }
}

// A shell 2 leads its session, and its jobs 3 and 4 are in group 3.
#[test]
fn jobs_of_a_shell(rt: HostRuntime) {
    let shell = kin(2, 2, true, 1, 0);
    let job = kin(3, 3, true, 2, 2);
    let child_of_job = kin(4, 3, true, 3, 3);
    let before = [shell, job, child_of_job];
    assert!(rt; is_link(&job) && !is_link(&shell) && !is_link(&child_of_job));
    assert!(rt; !is_orphaned(&before, Pid(3)));
    assert!(rt;
        is_orphaned(&before, Pid(2)),
        "a session leader's group is orphaned"
    );
    let left_alone = [kin(3, 3, true, 1, 0), child_of_job];
    assert!(rt; newly_orphaned(&before, &left_alone, Pid(3)));
    let ended_job = [shell, kin(3, 3, false, 2, 2), kin(4, 3, true, 1, 0)];
    assert!(rt;
        is_orphaned(&ended_job, Pid(3)),
        "ended members do not count"
    );
    assert!(rt; !newly_orphaned(&ended_job, &left_alone, Pid(3)));
}
