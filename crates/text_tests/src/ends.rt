use byte_ends::{
    LONGEST_INPUT, MemSink, MemSource, ReadEnd, StdEnd, WriteFault, next_line, number_at, read_all,
    words_of, write_all,
};
use std::test::Fail;

#[test]
fn the_limit_is_the_longest_input(rt: HostRuntime) -> Result<(), Fail> {
    let text = vec![in rt.alloc(); 7u8; LONGEST_INPUT]?;
    let copy = text.clone()?;
    let mut source = MemSource::new(text, vec![in rt.alloc()]?);
    assert_eq!(rt; read_all(rt.alloc(), &mut source, LONGEST_INPUT), Ok(copy));
    Ok(())
}

#[test]
fn one_byte_more_is_too_long(rt: HostRuntime) -> Result<(), Fail> {
    let text = vec![in rt.alloc(); 7u8; LONGEST_INPUT + 1]?;
    let mut source = MemSource::new(text, vec![in rt.alloc()]?);
    assert_eq!(rt;
        read_all(rt.alloc(), &mut source, LONGEST_INPUT),
        Err(ReadEnd::TooLong)
    );
    Ok(())
}

#[test]
fn a_read_that_fails(rt: HostRuntime) -> Result<(), Fail> {
    for call in 1..4 {
        let text = vec![in rt.alloc(); 7u8; 100_000]?;
        let mut source = MemSource::new(text, vec![in rt.alloc(); call]?);
        assert_eq!(rt;
            read_all(rt.alloc(), &mut source, LONGEST_INPUT),
            Err(ReadEnd::ReadFault)
        );
    }
    Ok(())
}

#[test]
fn a_write_that_fails(rt: HostRuntime) -> Result<(), Fail> {
    let mut sink = MemSink::new(rt.alloc(), 100, 4, vec![in rt.alloc(); 3]?)
        .ok()
        .ok_or("no memory")?;
    assert_eq!(rt; write_all(&mut sink, b"2 exit 0\nquiet\n"), Err(WriteFault));
    assert_eq!(rt; sink.bytes(), b"2 exit 0".as_slice());
    assert_eq!(rt; write_all(&mut sink, b"\nquiet\n"), Ok(()));
    assert_eq!(rt; sink.bytes(), b"2 exit 0\nquiet\n".as_slice());
    Ok(())
}

#[test]
fn a_sink_without_room(rt: HostRuntime) -> Result<(), Fail> {
    let mut sink = MemSink::new(rt.alloc(), 5, 4, vec![in rt.alloc()]?)
        .ok()
        .ok_or("no memory")?;
    assert_eq!(rt; write_all(&mut sink, b"quiet\n"), Err(WriteFault));
    assert_eq!(rt; sink.bytes(), b"quiet".as_slice());
    Ok(())
}

#[test]
fn readers_and_writers_of_std(rt: HostRuntime) -> Result<(), Fail> {
    let mut written = vec![in rt.alloc()]?;
    let mut source = StdEnd::new(b"2 exit 0\nquiet\n".as_slice());
    let text = read_all(rt.alloc(), &mut source, 100)
        .ok()
        .ok_or("not read")?;
    let mut sink = StdEnd::new(&mut written);
    assert_eq!(rt; write_all(&mut sink, &text), Ok(()));
    assert_eq!(rt; written.as_slice(), b"2 exit 0\nquiet\n".as_slice());
    let mut small = [0u8; 5];
    let mut full = StdEnd::new(small.as_mut_slice());
    assert_eq!(rt; write_all(&mut full, b"quiet\n"), Err(WriteFault));
    assert_eq!(rt; small.as_slice(), b"quiet".as_slice());
    Ok(())
}

#[test]
fn lines_and_words(rt: HostRuntime) -> Result<(), Fail> {
    let text = b"cluster\t 2 \r\n\nend";
    assert_eq!(rt; next_line(text, 0), Some((0, 11, 13)));
    assert_eq!(rt; next_line(text, 13), Some((13, 13, 14)));
    assert_eq!(rt; next_line(text, 14), Some((14, 17, 17)));
    assert_eq!(rt; next_line(text, 17), None);
    let words = words_of(rt.alloc(), &text[..11])?;
    assert_eq!(rt; words.len(), 2);
    assert_eq!(rt; words[0], b"cluster".as_slice());
    assert_eq!(rt; words[1], b"2".as_slice());
    Ok(())
}

#[test]
fn numbers(rt: HostRuntime) {
    assert_eq!(rt; number_at(b"4294967295"), Some(4_294_967_295));
    assert_eq!(rt; number_at(b"4294967296"), None);
    assert_eq!(rt; number_at(b"0000000017"), Some(17));
    assert_eq!(rt; number_at(b"00000000017"), None);
    assert_eq!(rt; number_at(b"12x"), None);
    assert_eq!(rt; number_at(b""), None);
}
