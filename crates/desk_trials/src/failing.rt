// Each call of the outside fails once, in turn.
use crate::calls::{Call, parts_of};
use crate::files::shelf;
use crate::outside::{Answer, Outside, SOUND};
use crate::run::run_over;
use desk_outside::Shelf;
use std::alloc::{AllocError, Global};
use std::test::Fail;

const CALLS: &str = "
$ 0 table --qrels q --measure recall_1 a b d
measure recall_1
level 1
topics 1
runs 3
run A 0.333333 1.000000
run B 0.000000 0.000000
run C 0.000000 0.500000
pair A above B 0.333333 1.000000
pair A open C 0.000000 1.000000
pair B open C -0.500000 0.000000
$ 0 certify --all --qrels q --measure recall_1 a b
desk-certificate 2
measure recall_1
level 1
runs 2
run A
run B
topics 1
topic 401 0
claims 1
claim above 0 1
bound 1000000000000000000
end
$ 0 verify --qrels q --cert v a b d
accepted
$ 0 session --qrels q --measure P_2 e f
> judge ann 401 d3 2
judged 401 d3 2
> pool 401 1
pool 2 2 1 0
> pool 401 2
pool 3 3 2 0
> qrels
401 0 d1 1
401 0 d2 0
401 0 d3 2
> undo ann
undone 401 d3 -
> redo ann
redone 401 d3 2
> certify A B
desk-certificate 1
measure P_2
level 1
first A
second B
claim above
topics 1
topic 401 1
end
> bogus
no BadLine
> quit
> undo ann
";

/// The part of the outside that fails.
#[derive(Clone, Copy)]
enum Part {
    Files,
    Input,
    Output,
}

const PARTS: [Part; 3] = [Part::Files, Part::Input, Part::Output];

// A sound outside, but that this call of a part fails.
fn failing(part: Part, number: u64, sound: Outside) -> Outside {
    let call = Some(number);
    match part {
        Part::Files => Outside {
            files: call,
            ..sound
        },
        Part::Input => Outside {
            input: call,
            ..sound
        },
        Part::Output => Outside { out: call, ..sound },
    }
}

// Whether a run ended at a failing call, after a prefix of its text.
fn is_cut(answer: &Answer, text: &[u8]) -> bool {
    answer.is(3, &answer.out, b"fault: outside\n") && text.starts_with(&answer.out)
}

// Lets each call of a part fail, until a run meets none that does, and answers whether each run was as it should be.
fn is_told_in_turn(
    alloc: Global,
    call: Call<'_>,
    part: Part,
    sound: Outside,
) -> Result<bool, AllocError> {
    let text = call.text(alloc)?;
    for number in 0..2_000u64 {
        let answer = call.answer(alloc, failing(part, number, sound))?;
        if !is_cut(&answer, text.as_bytes()) {
            return Ok(call.is_answered(&text, &answer));
        }
    }
    Ok(false)
}

fn is_told_of_each_part(alloc: Global, call: Call<'_>, sound: Outside) -> Result<bool, AllocError> {
    for part in &PARTS {
        if !is_told_in_turn(alloc, call, *part, sound)? {
            return Ok(false);
        }
    }
    Ok(true)
}

// Whether this is so of four calls, whose input gives and whose output takes at most so many bytes.
fn are_told(alloc: Global, given: usize, taken: usize) -> Result<bool, AllocError> {
    let sound = Outside {
        given,
        taken,
        ..SOUND
    };
    let parts = parts_of(alloc, CALLS, "$ ")?;
    for part in parts.iter() {
        if !is_told_of_each_part(alloc, Call::of(part), sound)? {
            return Ok(false);
        }
    }
    Ok(parts.len() == 4)
}

#[test]
fn each_call_fails_once(rt: HostRuntime) -> Result<(), Fail> {
    let alloc = rt.alloc();
    assert!(rt; are_told(alloc, 1, 1)?);
    assert!(rt; are_told(alloc, 19, 7)?);
    assert!(rt; are_told(alloc, 4096, 4096)?);
    Ok(())
}

/// A command line, its input, the outside over which it is called, and its answer.
struct OutsideCase {
    line: &'static str,
    lines: &'static [u8],
    outside: Outside,
    status: u8,
    out: &'static [u8],
    err: &'static [u8],
}

const TABLE: &str = "table --qrels q --measure P_2 e f";

const FAULTY: &str = "table --qrels v2 --measure P_1 a";

const SESSION: &str = "session --qrels q --measure P_2 e f";

// Of a session that ends without a line feed, and of a table of files the first of which has a faulty line: it is opened by call 0, read
// by call 1, and read at its end by call 2.
const CASES: [OutsideCase; 9] = [
    OutsideCase {
        line: "table --qrels q a",
        lines: b"",
        outside: Outside {
            err: Some(0),
            ..SOUND
        },
        status: 2,
        out: b"",
        err: b"",
    },
    OutsideCase {
        line: FAULTY,
        lines: b"",
        outside: Outside {
            files: Some(1),
            ..SOUND
        },
        status: 3,
        out: b"",
        err: b"fault: outside\n",
    },
    OutsideCase {
        line: FAULTY,
        lines: b"",
        outside: Outside {
            files: Some(2),
            ..SOUND
        },
        status: 3,
        out: b"",
        err: b"fault: outside\n",
    },
    OutsideCase {
        line: FAULTY,
        lines: b"",
        outside: Outside {
            files: Some(3),
            ..SOUND
        },
        status: 1,
        out: b"",
        err: b"refused: v2 line 1: BadFieldCount\n",
    },
    OutsideCase {
        line: TABLE,
        lines: b"",
        outside: Outside { room: 16, ..SOUND },
        status: 3,
        out: b"measure P_2\nleve",
        err: b"fault: outside\n",
    },
    // The second read fails: the one whole line of the first 19 bytes has its reply.
    OutsideCase {
        line: SESSION,
        lines: b"judge ann 401 d3 1\njudge bob 401 d3 0\n",
        outside: Outside {
            given: 19,
            input: Some(1),
            ..SOUND
        },
        status: 3,
        out: b"judged 401 d3 1\n",
        err: b"fault: outside\n",
    },
    OutsideCase {
        line: SESSION,
        lines: b"undo bob\nquit x",
        outside: Outside { given: 1, ..SOUND },
        status: 0,
        out: b"no NothingToUndo\nno BadLine\n",
        err: b"",
    },
    OutsideCase {
        line: SESSION,
        lines: b"undo bob\nquit x",
        outside: Outside { given: 19, ..SOUND },
        status: 0,
        out: b"no NothingToUndo\nno BadLine\n",
        err: b"",
    },
    OutsideCase {
        line: SESSION,
        lines: b"undo bob\nquit x",
        outside: SOUND,
        status: 0,
        out: b"no NothingToUndo\nno BadLine\n",
        err: b"",
    },
];

fn is_answered(alloc: Global, case: &OutsideCase) -> Result<bool, AllocError> {
    let mut files = shelf(alloc, case.outside.files)?;
    let answer = run_over(alloc, case.line, &mut files, case.lines, case.outside)?;
    Ok(answer.is(case.status, case.out, case.err))
}

// Each of the three files takes three calls, from 0: one to open it, one for its bytes, one for its end. Call 9 fails.
fn is_read_to_its_end(alloc: Global) -> Result<bool, AllocError> {
    let mut files = shelf(alloc, Some(9))?;
    let answer = run_over(alloc, TABLE, &mut files, b"", SOUND)?;
    Ok(answer.status == 0 && files.open("q").is_err() && files.open("q").is_ok())
}

#[test]
fn a_failure_has_its_answer(rt: HostRuntime) -> Result<(), Fail> {
    for case in &CASES {
        assert!(rt; is_answered(rt.alloc(), case)?, "{}", case.line);
    }
    assert!(rt; is_read_to_its_end(rt.alloc())?);
    Ok(())
}
