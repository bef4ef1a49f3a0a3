// What is meant by lines, fields and digits, by examples.
use desk_text::{BadByte, Lines, Pushed, fields, is_blank, next_line, plain, whole};
use std::test::Fail;

#[test]
fn cuts_lines(rt: HostRuntime) {
    let text = b"one\n\ntwo";
    let first = next_line(text, 0);
    assert_eq!(rt; (first.start, first.end, first.next), (0, 3, 4));
    let blank = next_line(text, first.next);
    assert_eq!(rt; (blank.start, blank.end, blank.next), (4, 4, 5));
    let last = next_line(text, blank.next);
    assert_eq!(rt; (last.start, last.end, last.next), (5, 8, 8));
}

#[test]
fn finds_fields(rt: HostRuntime) {
    let line = b" 401\t0 \tFBIS3-1  1\r";
    let Ok(found) = fields(line) else {
        panic!(rt; "no byte of this line is bad");
    };
    assert_eq!(rt; found.count(), 4);
    assert_eq!(rt; found.text(line, 2), b"FBIS3-1".as_slice());
    assert!(rt; is_blank(b" \t\r") && !is_blank(line));
    assert!(rt; matches!(fields(b"a\0b\x7f"), Err(BadByte { at: 1 })));
}

#[test]
fn reads_numbers(rt: HostRuntime) {
    let mut padded = [b'0'; 4001];
    padded[4000] = b'1';
    assert_eq!(rt; whole(&padded, -1000, 1000), Some(1));
    assert_eq!(rt; whole(b"-1000", -1000, 1000), Some(-1000));
    assert_eq!(rt; whole(b"+7", -1000, 1000), Some(7));
    assert_eq!(rt; whole(b"1001", -1000, 1000), None);
    assert_eq!(rt; whole(b"-", -1000, 1000), None);
    assert_eq!(rt;
        whole(b"-9223372036854775808", i64::MIN, i64::MAX),
        Some(i64::MIN)
    );
    assert_eq!(rt; whole(b"9223372036854775808", i64::MIN, i64::MAX), None);
    assert_eq!(rt; plain(b"0", 10), Some(0));
    assert_eq!(rt; plain(b"010", 10), None);
}

#[test]
fn takes_lines_in_pieces(rt: HostRuntime) -> Result<(), Fail> {
    let mut lines = Lines::new(rt.alloc())?;
    let (used, ended) = (2, false);
    assert!(rt; lines.push(b"on") == Pushed { used, ended });
    let (used, ended) = (2, true);
    assert!(rt; lines.push(b"e\ntwo") == Pushed { used, ended });
    assert_eq!(rt; lines.line(), Some(b"one".as_slice()));
    lines.clear();
    let (used, ended) = (4097, false);
    assert!(rt; lines.push(&[b'x'; 4097]) == Pushed { used, ended });
    assert!(rt; lines.line().is_none());
    lines.clear();
    assert!(rt; lines.line().is_some_and(|line| line.is_empty()));
    Ok(())
}
