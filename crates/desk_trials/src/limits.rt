// Limits that are met, and passed by one, and inputs that are not small: no clause keeps a body from answering 'out of memory' for
// such inputs alone.
use crate::outside::{Answer, Outside, SOUND};
use crate::run::run_line;
use std::alloc::{AllocError, Global};
use std::test::Fail;

/// Texts, each so many times, one after the other. A `#` in a text stands for its number, from 0.
type Pieces = &'static [(&'static str, u32)];

const ONE_RUN: &str = "table --qrels q --measure P_1 a";

const SESSION: &str = "session --qrels q --measure P_1 a";

const GRADED: &str = "graded --qrels q --measure rbp_0.5 --greatest 2";

const QRELS: &str = "401 0 d1 1\n401 0 d2 0\n";

const RUN: &str = "401 Q0 d1 1 9 A\n";

/// A call over the judgements q and the run a, which is the sheet w too, with this input: its status, its output, or how this ends after `..`, and what is told.
struct Long {
    line: Pieces,
    qrels: Pieces,
    run: Pieces,
    input: Pieces,
    status: u8,
    out: &'static str,
    told: &'static str,
}

// A line of a run, of judgements, of a sheet and of a session, and a name, have their limits; then ranks, topics, cells, those of two levels and a history: 1,000,000
// judgements of one assessor are accepted and no more, and one that is undone still counts for the others. The last is a file of
// several pieces, and 256 runs, two of which have names of 255 bytes.
const LONG: [Long; 26] = [
    Long {
        line: &[(ONE_RUN, 1)],
        qrels: &[(QRELS, 1)],
        run: &[("401 Q0 d1 1 9 A", 1), (" ", 4081), ("\n", 1)],
        input: &[],
        status: 0,
        out: "..run A 1.000000 1.000000\n",
        told: "",
    },
    Long {
        line: &[(ONE_RUN, 1)],
        qrels: &[(QRELS, 1)],
        run: &[("401 Q0 d1 1 9 A", 1), (" ", 4082), ("\n", 1)],
        input: &[],
        status: 1,
        out: "",
        told: "refused: a line 1: LineTooLong\n",
    },
    Long {
        line: &[(ONE_RUN, 1)],
        qrels: &[(QRELS, 1)],
        run: &[("401 Q0 ", 1), ("d", 255), (" 1 9 A\n", 1)],
        input: &[],
        status: 0,
        out: "..run A 0.000000 1.000000\n",
        told: "",
    },
    Long {
        line: &[(ONE_RUN, 1)],
        qrels: &[(QRELS, 1)],
        run: &[("401 Q0 ", 1), ("d", 256), (" 1 9 A\n", 1)],
        input: &[],
        status: 1,
        out: "",
        told: "refused: a line 1: NameTooLong\n",
    },
    Long {
        line: &[(ONE_RUN, 1)],
        qrels: &[("401 0 d1 1", 1), (" ", 4086), ("\n", 1)],
        run: &[(RUN, 1)],
        input: &[],
        status: 0,
        out: "..run A 1.000000 1.000000\n",
        told: "",
    },
    Long {
        line: &[(ONE_RUN, 1)],
        qrels: &[("401 0 d1 1", 1), (" ", 4087), ("\n", 1)],
        run: &[(RUN, 1)],
        input: &[],
        status: 1,
        out: "",
        told: "refused: q line 1: LineTooLong\n",
    },
    Long {
        line: &[(ONE_RUN, 1)],
        qrels: &[("401 0 ", 1), ("d", 255), (" 1\n", 1)],
        run: &[(RUN, 1)],
        input: &[],
        status: 0,
        out: "..run A 0.000000 1.000000\n",
        told: "",
    },
    Long {
        line: &[(ONE_RUN, 1)],
        qrels: &[("401 0 ", 1), ("d", 256), (" 1\n", 1)],
        run: &[(RUN, 1)],
        input: &[],
        status: 1,
        out: "",
        told: "refused: q line 1: NameTooLong\n",
    },
    Long {
        line: &[("merge w", 1)],
        qrels: &[],
        run: &[("5 ann 401 d1 1", 1), (" ", 4083), ("\n", 1)],
        input: &[],
        status: 1,
        out: "",
        told: "refused: w line 1: LineTooLong\n",
    },
    Long {
        line: &[("merge w", 1)],
        qrels: &[],
        run: &[("5 ann 401 ", 1), ("d", 256), (" 1\n", 1)],
        input: &[],
        status: 1,
        out: "",
        told: "refused: w line 1: NameTooLong\n",
    },
    Long {
        line: &[(SESSION, 1)],
        qrels: &[(QRELS, 1)],
        run: &[(RUN, 1)],
        input: &[("pool 401 1", 1), (" ", 4086), ("\n", 1)],
        status: 0,
        out: "pool 1 1 1 0\n",
        told: "",
    },
    Long {
        line: &[(SESSION, 1)],
        qrels: &[(QRELS, 1)],
        run: &[(RUN, 1)],
        input: &[("x", 4001), ("\n", 1)],
        status: 0,
        out: "no BadLine\n",
        told: "",
    },
    Long {
        line: &[(SESSION, 1)],
        qrels: &[(QRELS, 1)],
        run: &[(RUN, 1)],
        input: &[("judge ann 401 d1 ", 1), ("x", 4079), ("\n", 1)],
        status: 0,
        out: "no BadLine\n",
        told: "",
    },
    Long {
        line: &[(SESSION, 1)],
        qrels: &[(QRELS, 1)],
        run: &[(RUN, 1)],
        input: &[(" ", 4097), ("\n", 1)],
        status: 0,
        out: "no LineTooLong\n",
        told: "",
    },
    Long {
        line: &[(SESSION, 1)],
        qrels: &[(QRELS, 1)],
        run: &[(RUN, 1)],
        input: &[("pool 401 1", 1), (" ", 4087), ("\n", 1)],
        status: 0,
        out: "no LineTooLong\n",
        told: "",
    },
    Long {
        line: &[(ONE_RUN, 1)],
        qrels: &[(QRELS, 1)],
        run: &[("401 Q0 d# 1 9 A\n", 10_001)],
        input: &[],
        status: 1,
        out: "",
        told: "refused: a line 10001: TooDeep\n",
    },
    Long {
        line: &[(ONE_RUN, 1)],
        qrels: &[(QRELS, 1)],
        run: &[("401 Q0 d# 1 9 A\n", 10_000)],
        input: &[],
        status: 0,
        out: "..run A 0.000000 1.000000\n",
        told: "",
    },
    Long {
        line: &[(ONE_RUN, 1)],
        qrels: &[("# 0 d 1\n", 10_001)],
        run: &[("0 Q0 d 1 9 A\n", 1)],
        input: &[],
        status: 1,
        out: "",
        told: "refused: q line 10001: TooManyTopics\n",
    },
    Long {
        line: &[("table --qrels q --measure P_1", 1), (" r#=a", 256)],
        qrels: &[("# 0 d 1\n", 307)],
        run: &[("0 Q0 d 1 9 A\n", 1)],
        input: &[],
        status: 1,
        out: "",
        told: "refused: desk: TooManyCells 10020480\n",
    },
    Long {
        line: &[("tiers --qrels q --measure P_1", 1), (" r#=a", 256)],
        qrels: &[("# 0 d 1\n", 307)],
        run: &[("0 Q0 d 1 9 A\n", 1)],
        input: &[],
        status: 1,
        out: "",
        told: "refused: desk: TooManyCells 10020480\n",
    },
    Long {
        line: &[("table --qrels q --measure P_1", 1), (" r#=a", 256)],
        qrels: &[("# 0 d 1\n", 306)],
        run: &[("0 Q0 d 1 9 A\n", 1)],
        input: &[],
        status: 0,
        out: "..pair r254 equal r255 0.000000 0.000000\n",
        told: "",
    },
    Long {
        line: &[(GRADED, 1), (" r#=a", 256)],
        qrels: &[("# 0 d 1\n", 307)],
        run: &[("0 Q0 d 1 9 A\n", 1)],
        input: &[],
        status: 1,
        out: "",
        told: "refused: desk: TooManyCells 20040960\n",
    },
    Long {
        line: &[(GRADED, 1), (" r#=a", 256)],
        qrels: &[("# 0 d 1\n", 154)],
        run: &[("0 Q0 d 1 9 A\n", 1)],
        input: &[],
        status: 1,
        out: "",
        told: "refused: desk: TooManyCells 10053120\n",
    },
    Long {
        line: &[(GRADED, 1), (" r#=a", 256)],
        qrels: &[("# 0 d 1\n", 153)],
        run: &[("0 Q0 d 1 9 A\n", 1)],
        input: &[],
        status: 0,
        out: "..pair r254 open r255 -0.996733 0.996733\n",
        told: "",
    },
    Long {
        line: &[(SESSION, 1)],
        qrels: &[(QRELS, 1)],
        run: &[(RUN, 1)],
        input: &[
            ("judge ann 401 d1 1\n", 1_000_001),
            ("undo ann\njudge bob 401 d1 1\njudge ann 401 d1 0\n", 1),
        ],
        status: 0,
        out: "..judged 401 d1 1\nno HistoryFull\nundone 401 d1 1\nno HistoryFull\njudged 401 d1 0\n",
        told: "",
    },
    Long {
        line: &[
            ("table --qrels q --measure P_1 ", 1),
            ("a", 255),
            ("=a", 1),
            (" r#=a", 254),
            (" ", 1),
            ("b", 255),
            ("=a", 1),
        ],
        qrels: &[("\n", 140_000), (QRELS, 1)],
        run: &[(RUN, 1)],
        input: &[],
        status: 0,
        out: "..bbbb 0.000000 0.000000\n",
        told: "",
    },
];

fn push(alloc: Global, text: &mut String, form: &str, count: u32) -> Result<(), AllocError> {
    let (start, end) = form.split_once('#').unwrap_or((form, ""));
    for number in 0..count {
        text.push_str(start)?;
        if !end.is_empty() {
            text.push_str(&format!(in alloc; "{number}{end}")?)?;
        }
    }
    Ok(())
}

fn text_of(alloc: Global, pieces: Pieces) -> Result<String, AllocError> {
    let mut text = String::new(alloc);
    for (form, count) in pieces {
        push(alloc, &mut text, form, *count)?;
    }
    Ok(text)
}

fn is_text(text: &[u8], expected: &str) -> bool {
    match expected.strip_prefix("..") {
        Some(ending) => text.ends_with(ending.as_bytes()),
        None => text == expected.as_bytes(),
    }
}

fn answer_of(
    alloc: Global,
    line: &str,
    qrels: &[u8],
    run: &[u8],
    input: &[u8],
) -> Result<Answer, AllocError> {
    let large = Outside {
        room: 20_000_000,
        ..SOUND
    };
    let files = [("q", qrels), ("a", run), ("w", run)];
    run_line(alloc, line, &files, input, large)
}

fn is_answered(alloc: Global, case: &Long) -> Result<bool, AllocError> {
    let line = text_of(alloc, case.line)?;
    let qrels = text_of(alloc, case.qrels)?;
    let run = text_of(alloc, case.run)?;
    let input = text_of(alloc, case.input)?;
    let answer = answer_of(
        alloc,
        &line,
        qrels.as_bytes(),
        run.as_bytes(),
        input.as_bytes(),
    )?;
    Ok(
        answer.status == case.status
            && is_text(&answer.out, case.out)
            && answer.err.as_slice() == case.told.as_bytes(),
    )
}

#[test]
fn limits_are_met_and_passed(rt: HostRuntime) -> Result<(), Fail> {
    for case in &LONG {
        assert!(rt;
            is_answered(rt.alloc(), case)?,
            "{} {}",
            case.out,
            case.told
        );
    }
    Ok(())
}
