// What a call is refused for.

/// Faults of lines and of whole files.

pub const FAULTS: &str = "
$ 1 table --qrels q1 --measure P_1 a
refused: q1 line 1: BadByte
$ 1 table --qrels q2 --measure P_1 a
refused: q2 line 1: BadFieldCount
$ 1 table --qrels q3 --measure P_1 a
refused: q3 line 2: BadGrade
$ 1 table --qrels q4 --measure P_1 a
refused: q4 line 2: RepeatedDocument
$ 1 table --qrels q5 --measure P_1 a
refused: q5: NoTopics
$ 1 table --qrels q --measure P_1 a1
refused: a1 line 1: BadByte
$ 1 certify --qrels q --measure P_1 b a2
refused: a2 line 1: BadFieldCount
$ 1 certify --all --qrels q --measure P_1 b a2
refused: a2 line 1: BadFieldCount
$ 1 session --qrels q --measure P_1 a3
> table
refused: a3 line 1: BadScore
$ 1 table --qrels q --measure P_1 a4
refused: a4 line 1: ScoreTooLong
$ 1 table --qrels q --measure P_1 a5
refused: a5 line 1: ScoreExponent
$ 1 table --qrels q --measure P_1 N=a6
refused: a6 line 2: RepeatedDocument
$ 1 table --qrels q --measure P_1 a7
refused: a7: NoTag
";

/// A repeated name, certificates with a bad line, words and missing files.
pub const STOPPED: &str = "
$ 1 table --qrels q --measure P_1 a A=b
refused: A: SameName
$ 1 verify --qrels q --cert v1 a b
refused: v1 line 1: BadLine
$ 1 verify --qrels q --cert v2 a b
refused: v2 line 2: BadLine
$ 1 verify --qrels q --cert v3 a b
refused: v3 line 6: BadLine
$ 1 verify --qrels q --cert v4 a b
refused: v4 line 8: BadLine
$ 1 verify --qrels q --cert v5 a b
refused: v5 line 10: BadLine
$ 2 demo
usage: desk COMMAND --qrels FILE --measure NAME [--level N] RUN...
$ 2 table --qrels q --measure P_1 --level 1001 a
usage: desk COMMAND --qrels FILE --measure NAME [--level N] RUN...
$ 2 verify --qrels q --cert v2 a
usage: desk COMMAND --qrels FILE --measure NAME [--level N] RUN...
$ 3 table --qrels x --measure P_1 a
fault: outside
$ 3 certify --qrels q --measure P_1 a x
fault: outside
$ 3 certify --qrels q --measure P_1 a -- --all
fault: outside
$ 3 verify --qrels q --cert x a b
fault: outside
$ 3 session --qrels q --measure P_1 x
> table
fault: outside
";

/// Words that are no command.
pub const USAGE: &str = "
$ 2 table --qrels -q --measure P_2 a
usage: desk COMMAND --qrels FILE --measure NAME [--level N] RUN...
$ 2 order --qrels q --measure P_2 a
usage: desk COMMAND --qrels FILE --measure NAME [--level N] RUN...
$ 2 table --qrels q --measure P_2 a --all
usage: desk COMMAND --qrels FILE --measure NAME [--level N] RUN...
$ 2 table --qrels q --measure P_2 a --help
usage: desk COMMAND --qrels FILE --measure NAME [--level N] RUN...
$ 2 table --qrels q --measure P_2 --measure P_2 a
usage: desk COMMAND --qrels FILE --measure NAME [--level N] RUN...
$ 2 table --measure P_2 a
usage: desk COMMAND --qrels FILE --measure NAME [--level N] RUN...
$ 2 certify --qrels q --measure P_2 a
usage: desk COMMAND --qrels FILE --measure NAME [--level N] RUN...
$ 2 certify --all --qrels q --measure P_2 a
usage: desk COMMAND --qrels FILE --measure NAME [--level N] RUN...
$ 2 certify --all --qrels q --measure P_2 --all a b
usage: desk COMMAND --qrels FILE --measure NAME [--level N] RUN...
$ 2 certify --all=1 --qrels q --measure P_2 a b
usage: desk COMMAND --qrels FILE --measure NAME [--level N] RUN...
$ 2 session --all --qrels q --measure P_2 a b
usage: desk COMMAND --qrels FILE --measure NAME [--level N] RUN...
$ 2 verify --all --qrels q --cert v a b
usage: desk COMMAND --qrels FILE --measure NAME [--level N] RUN...
$ 2 verify --qrels q --cert v --level 2 a b
usage: desk COMMAND --qrels FILE --measure NAME [--level N] RUN...
$ 2 demo --all 7
usage: desk COMMAND --qrels FILE --measure NAME [--level N] RUN...
$ 2 demo 7 8
usage: desk COMMAND --qrels FILE --measure NAME [--level N] RUN...
$ 2 demo 4294967296
usage: desk COMMAND --qrels FILE --measure NAME [--level N] RUN...
";
