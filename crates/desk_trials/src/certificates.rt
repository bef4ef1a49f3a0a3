// Certificates that are refused or rejected. The expected texts are worked out by hand.
use crate::calls::parts_of;
use crate::outside::{Answer, SOUND};
use crate::run::run_line;
use std::alloc::{AllocError, Global};
use std::test::Fail;

/// What a check of a certificate over the runs A, B, C and D, which is A, answers.
pub fn checked(alloc: Global, text: &[u8]) -> Result<Answer, AllocError> {
    let files: [(&str, &[u8]); 5] = [
        ("q", b"401 0 d1 1\n401 0 d2 0\n"),
        ("a", b"401 Q0 d1 1 9 A\n"),
        ("b", b"401 Q0 d2 1 9 B\n"),
        ("c", b"401 Q0 z1 1 9 C\n"),
        ("v", text),
    ];
    run_line(
        alloc,
        "verify --qrels q --cert v a b c D=a",
        &files,
        b"",
        SOUND,
    )
}

/// Whether a certificate is accepted over these runs.
pub fn is_accepted(alloc: Global, text: &str) -> Result<bool, AllocError> {
    let answer = checked(alloc, text.as_bytes())?;
    Ok(answer.is(0, b"accepted\n", b""))
}

// What is told of certificates with a bad line, each after `$ `, and then the certificate.
const BAD: &str = "
$ refused: v line 1: BadLine
$ refused: v line 9: BadLine
desk-certificate 1
measure recall_1
level 1
first B
second C
claim open
topics 1
low 401 25000000
$ refused: v line 10: BadLine
desk-certificate 1
measure recall_1
level 1
first A
second B
claim above
topics 1
topic 401 333333333333333333
end
end
$ refused: v line 3: BadLine
desk-certificate 1
measure recall_1
level 01
first A
second B
claim above
topics 1
topic 401 333333333333333333
end
$ refused: v line 8: BadLine
desk-certificate 1
measure recall_1
level 1
first A
second B
claim above
topics 1
topic 401 -0
end
$ refused: v line 8: BadLine
desk-certificate 1
measure recall_1
level 1
first A
second B
claim above
topics 1
topic 401 33333333333333333333
end
$ refused: v line 9: BadLine
desk-certificate 1
measure recall_1
level 1
first A
second B
claim above
topics 1
topic 401 333333333333333333
end";

// What is printed of certificates under any measure, each after `$ `, and then the certificate from its line 4 on. No least difference
// is above 10^18. That of A and B is above 0. A and D differ by less than 10^18, and in some completion D is not above A. Where z1 is
// not relevant A is above C whatever C's tail holds.
const FORGED: &str = "
$ rejected WrongNames line 4
first X
second B
claim above
topics 1
topic 401 1
end
$ rejected WrongNames line 5
first A
second X
claim above
topics 1
topic 401 1
end
$ rejected WrongNames line 5
first A
second A
claim equal
topics 1
topic 401 0 0
end
$ rejected WrongNames line 7
first A
second B
claim above
topics 2
topic 401 1
topic 402 1
end
$ rejected WrongNames line 8
first A
second B
claim above
topics 1
topic 402 1
end
$ rejected WrongNames line 8
first A
second C
claim open
topics 1
low 402 0
high 402 0
end
$ rejected BoundTooGreat topic 401
first A
second B
claim above
topics 1
topic 401 1000000000000000001
end
$ rejected BoundTooGreat topic 401
first A
second D
claim equal
topics 1
topic 401 -1000000000000000000 -1
end
$ rejected NoSum
first A
second B
claim above
topics 1
topic 401 0
end
$ rejected NoSum
first A
second D
claim equal
topics 1
topic 401 -1000000000000000000 1000000000000000000
end
$ rejected NotCompletion line 9
first A
second C
claim open
topics 1
low 401 1
doc d1
high 401 0
end
$ rejected NotCompletion line 10
first A
second C
claim open
topics 1
low 401 0
high 401 1
doc x
end
$ rejected NoDifference
first A
second C
claim open
topics 1
low 401 0
high 401 0
end
";

// The first lines of certificates, what follows them in each, and how many these are.
const CERTIFICATES: [(&str, &str, usize); 7] = [
    ("", BAD, 7),
    ("desk-certificate 1\nmeasure P_1\nlevel 1\n", FORGED, 13),
    (
        "desk-certificate 1\nmeasure recall_1\nlevel 1\n",
        FORGED,
        13,
    ),
    ("desk-certificate 1\nmeasure Rprec\nlevel 1\n", FORGED, 13),
    (
        "desk-certificate 1\nmeasure recip_rank\nlevel 1\n",
        FORGED,
        13,
    ),
    ("desk-certificate 1\nmeasure rbp_0.4\nlevel 1\n", FORGED, 13),
    ("desk-certificate 1\nmeasure map\nlevel 1\n", FORGED, 13),
];

// Whether a certificate with these first lines is refused or rejected as its part says.
fn is_turned_down(alloc: Global, first_lines: &str, part: &str) -> Result<bool, AllocError> {
    let (told, lines) = part.split_once('\n').unwrap_or((part, ""));
    let certificate = format!(in alloc; "{first_lines}{lines}")?;
    let answer = checked(alloc, certificate.as_bytes())?;
    let told = format!(in alloc; "{told}\n")?;
    if told.starts_with("refused") {
        Ok(answer.is(1, b"", told.as_bytes()))
    } else {
        Ok(answer.is(5, told.as_bytes(), b""))
    }
}

// Whether so many certificates are turned down so.
fn are_turned_down(
    alloc: Global,
    first_lines: &str,
    parts: &str,
    count: usize,
) -> Result<bool, AllocError> {
    let parts = parts_of(alloc, parts, "$ ")?;
    for part in parts.iter() {
        if !is_turned_down(alloc, first_lines, part)? {
            return Ok(false);
        }
    }
    Ok(parts.len() == count)
}

#[test]
fn each_bad_line_and_each_reason_is_told(rt: HostRuntime) -> Result<(), Fail> {
    for (first_lines, parts, count) in &CERTIFICATES {
        assert!(rt;
            are_turned_down(rt.alloc(), first_lines, parts, *count)?,
            "{first_lines}"
        );
    }
    Ok(())
}
