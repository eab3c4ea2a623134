use file_parts::{Parts, Span, split};
use std::test::Fail;

fn span(from: usize, to: usize, first_line: u32) -> Span {
    Span {
        from,
        to,
        first_line,
    }
}

fn text_parts(world: Span, schedule: Option<Span>, history: Option<Span>) -> Parts {
    Parts {
        world,
        schedule,
        history,
    }
}

#[test]
fn splits(rt: HostRuntime) -> Result<(), Fail> {
    let cases: [(&[u8], Parts); 7] = [
        (b"", text_parts(span(0, 0, 1), None, None)),
        (
            b"cluster 1\nschedule 2\n",
            text_parts(span(0, 21, 1), None, None),
        ),
        (
            b"a\nschedule\ngo 0\n",
            text_parts(span(0, 2, 1), Some(span(11, 16, 3)), None),
        ),
        (
            b"a\n schedule\t\r\ngo 0\nhistory\n2 fork = 3\nschedule\nhistory",
            text_parts(span(0, 2, 1), Some(span(14, 19, 3)), Some(span(27, 54, 5))),
        ),
        (
            b"history\nschedule\nhistory\n",
            text_parts(span(0, 0, 1), None, Some(span(8, 25, 2))),
        ),
        (
            b"schedule",
            text_parts(span(0, 0, 1), Some(span(8, 8, 2)), None),
        ),
        (
            b"# history\nschedule\nschedule\n",
            text_parts(span(0, 10, 1), Some(span(19, 28, 3)), None),
        ),
    ];
    for (text, parts) in cases {
        assert!(rt; text.len() < 100);
        assert_eq!(rt; split(text), parts);
    }
    Ok(())
}
