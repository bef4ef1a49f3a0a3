// What is heard in lines, by hand.
use judge_session::{Heard, Request, hear};

const ASKED: [(&[u8], Request<'static>); 11] = [
    (
        b"judge ann 401 d1 +01",
        Request::Judge {
            who: b"ann",
            topic: b"401",
            doc: b"d1",
            grade: 1,
        },
    ),
    (
        b" judge\tann 401  d1 1\r",
        Request::Judge {
            who: b"ann",
            topic: b"401",
            doc: b"d1",
            grade: 1,
        },
    ),
    (b"undo ann", Request::Undo { who: b"ann" }),
    (b"redo ann", Request::Redo { who: b"ann" }),
    (b"table", Request::Table),
    (
        b"pair A B",
        Request::Pair {
            first: b"A",
            second: b"B",
        },
    ),
    (
        b"certify A B",
        Request::Certify {
            first: b"A",
            second: b"B",
        },
    ),
    (
        b"pool 401 10000",
        Request::Pool {
            topic: b"401",
            depth: 10_000,
        },
    ),
    (b"next", Request::Next),
    (b"qrels", Request::Qrels),
    (b"quit", Request::Quit),
];

fn are_asked() -> bool {
    for (line, request) in &ASKED {
        if hear(line) != Heard::Asked(*request) {
            return false;
        }
    }
    true
}

const BAD: [&[u8]; 8] = [
    b"quit x",
    b"Quit",
    b"pool 401 01",
    b"pool 401 0",
    b"pool 401 10001",
    b"judge ann 401 d1 1001",
    b"judge ann 401 d1",
    b"undo\x0bann",
];

fn are_bad() -> bool {
    for line in &BAD {
        if hear(line) != Heard::Bad {
            return false;
        }
    }
    true
}

fn is_blank(line: &[u8]) -> bool {
    hear(line) == Heard::Blank
}

#[test]
fn lines_are_heard(rt: HostRuntime) {
    assert!(rt; are_asked());
    assert!(rt; are_bad());
    assert!(rt; is_blank(b" \t\r") && is_blank(b"") && is_blank(&[b' '; 4096]));
    assert!(rt; hear(&[b' '; 4097]) == Heard::TooLong);
}
