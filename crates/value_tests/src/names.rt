use std::test::Fail;
use unix_names::{
    ALL_SIGNALS, DefaultAct, Name, NoMemory, Pid, Seq, default_of, number_of, signal_named, word_of,
};

#[test]
fn no_process_by_default(rt: HostRuntime) {
    assert_eq!(rt; Pid::default(), Pid(0));
}

#[test]
fn words_and_numbers_as_on_linux(rt: HostRuntime) {
    let linux = [
        ("HUP", 1),
        ("INT", 2),
        ("QUIT", 3),
        ("ABRT", 6),
        ("KILL", 9),
        ("USR1", 10),
        ("USR2", 12),
        ("PIPE", 13),
        ("ALRM", 14),
        ("TERM", 15),
        ("CHLD", 17),
        ("CONT", 18),
        ("STOP", 19),
        ("TSTP", 20),
        ("TTIN", 21),
        ("TTOU", 22),
        ("URG", 23),
    ];
    assert_eq!(rt; ALL_SIGNALS.len(), linux.len());
    for ((word, number), signal) in linux.iter().zip(ALL_SIGNALS.iter()) {
        assert_eq!(rt; word_of(*signal), *word);
        assert_eq!(rt; number_of(*signal), *number);
        assert_eq!(rt; signal_named(word.as_bytes()), Some(*signal));
    }
    let ends = ALL_SIGNALS
        .iter()
        .filter(|s| default_of(**s) == DefaultAct::End)
        .count();
    assert_eq!(rt; ends, 10);
}

#[test]
fn a_list_grows_and_is_copied(rt: HostRuntime) -> Result<(), Fail> {
    let mut names = Seq::with_capacity(rt.alloc(), 1)?;
    names.push(Name::V(Pid(2)))?;
    names.insert(0, Name::G(Pid(2)))?;
    names.extend_from_slice(&[Name::V(Pid(3))])?;
    let copy = names.copied(rt.alloc())?;
    let clone = names.clone()?;
    let slice = Seq::from_slice(rt.alloc(), names.as_slice())?;
    assert_eq!(rt; names.len(), 3);
    assert_eq!(rt; copy, names);
    assert_eq!(rt; clone, names);
    assert_eq!(rt; slice, names);
    Ok(())
}

// Both errors of std become this crate's, by `?`.
fn both_errors(pids: &mut Vec<Pid>) -> Result<(), NoMemory> {
    pids.reserve(1)?;
    pids.push(Pid(2))?;
    Ok(())
}

#[test]
fn memory_is_found(rt: HostRuntime) {
    let mut pids = Vec::new(rt.alloc());
    assert!(rt; both_errors(&mut pids).is_ok());
    assert_eq!(rt; pids.len(), 1);
}
