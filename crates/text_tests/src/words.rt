use script_words::{
    Fault, Kind, Verb, act_named, changes_in, ended, errno_named, is_minus_digits, is_skipped,
    name, node, number, put_changes, put_members, put_number, put_signal, put_word, signal,
    signal_number, verb_named, verb_word,
};
use std::test::Fail;
use unix_names::{Act, Errno, SigSet, Signal};

#[test]
fn reads_names(rt: HostRuntime) {
    let cases = [
        ("a", Ok(())),
        ("a1b2c3d4e5f6g7h8", Ok(())),
        ("a1b2c3d4e5f6g7h8i", Err(Kind::LongName)),
        ("", Err(Kind::UnknownWord)),
        ("1a", Err(Kind::UnknownWord)),
        ("aB", Err(Kind::UnknownWord)),
        ("self", Err(Kind::UnknownWord)),
        ("continued", Err(Kind::UnknownWord)),
    ];
    for (word, answer) in cases {
        assert_eq!(rt; name(word.as_bytes()), answer);
    }
}

#[test]
fn reads_numbers(rt: HostRuntime) {
    let cases = [
        ("017", Ok(17)),
        ("4294967295", Ok(4_294_967_295)),
        ("4294967296", Err(Kind::BadNumber)),
        ("00000000001", Err(Kind::BadNumber)),
        ("-1", Err(Kind::BadNumber)),
        ("", Err(Kind::UnknownWord)),
    ];
    for (word, answer) in cases {
        assert_eq!(rt; number(word.as_bytes()), answer);
    }
    assert_eq!(rt; node(2, b"1"), Ok(1));
    assert_eq!(rt; node(2, b"2"), Err(Kind::NoSuchNode));
}

#[test]
fn reads_signals(rt: HostRuntime) {
    assert_eq!(rt; signal(b"9"), Ok(Signal::Kill));
    assert_eq!(rt; signal(b"KILL"), Ok(Signal::Kill));
    assert_eq!(rt; signal(b"4"), Err(Kind::BadNumber));
    assert_eq!(rt; signal(b"kill"), Err(Kind::UnknownWord));
    assert_eq!(rt; signal_number(b"77"), Ok(77));
    assert_eq!(rt; signal_number(b"TERM"), Ok(15));
    assert_eq!(rt; signal_number(b"9x"), Err(Kind::BadNumber));
    assert_eq!(rt; signal_number(b"NONE"), Err(Kind::UnknownWord));
}

#[test]
fn reads_lines(rt: HostRuntime) {
    assert!(rt; is_minus_digits(b"-0"));
    assert!(rt; !is_minus_digits(b"-"));
    assert!(rt; !is_minus_digits(b"-a"));
    assert!(rt; is_skipped(&[b"#x", b"y"]));
    assert!(rt; !is_skipped(&[b"x", b"#y"]));
    assert_eq!(rt; ended(&[b"go", b"1"], 2, 7), Ok(7));
    assert_eq!(rt; ended(&[b"go", b"1", b"1"], 2, 7), Err(Kind::UnknownWord));
}

#[test]
fn tells_faults(rt: HostRuntime) -> Result<(), Fail> {
    let fault = Fault {
        line: 7,
        kind: Kind::LaterScript,
    };
    let text = format!(in rt.alloc(); "{fault}")?;
    assert_eq!(rt; text.as_str(), "bad file: line 7: LaterScript");
    Ok(())
}

#[test]
fn reads_words_of_the_table(rt: HostRuntime) {
    assert_eq!(rt; verb_named(b"poll"), Some(Verb::Poll));
    assert_eq!(rt; verb_named(b"waitpid"), None);
    assert_eq!(rt; act_named(b"catch"), Some(Act::Catch));
    assert_eq!(rt; act_named(b"CATCH"), None);
    assert_eq!(rt; errno_named(b"ECHILD"), Some(Errno::ECHILD));
    assert_eq!(rt; changes_in(&[b"stopped", b"continued"]), Some((true, true)));
    assert_eq!(rt; changes_in(&[b"continued", b"stopped"]), None);
}

#[test]
fn puts_words(rt: HostRuntime) -> Result<(), Fail> {
    let mut text = String::new(rt.alloc());
    put_word(&mut text, verb_word(Verb::Mask))?;
    put_members(
        &mut text,
        SigSet::empty().with(Signal::Term).with(Signal::Hup),
    )?;
    put_signal(&mut text, 15)?;
    put_signal(&mut text, 77)?;
    put_number(&mut text, 4_294_967_295)?;
    put_changes(&mut text, true, true)?;
    assert_eq!(rt;
        text.as_str(),
        " mask HUP TERM TERM 77 4294967295 stopped continued"
    );
    Ok(())
}
