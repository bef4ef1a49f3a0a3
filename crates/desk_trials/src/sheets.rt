// Sheets that are merged, and applied to judgements. The expected texts are worked out by hand.

/// Sheets in several orders, alone, with grades that are not printed as they were read, and without a line; and judgements under a sheet: a
/// grade below 0 takes back that of the file, and gives a document that no judgement lists no line.
pub const SHEETS: &str = "
$ 0 merge ws wt
7 bob 401 d1 2
5 bob 401 d3 0
$ 0 merge wt ws
7 bob 401 d1 2
5 bob 401 d3 0
$ 0 merge ws wt ws
7 bob 401 d1 2
5 bob 401 d3 0
$ 0 merge -- ws
7 bob 401 d1 0
5 ann 401 d3 1
$ 0 merge wn
9 ann 401 d1 -5
9 ann 401 d2 7
$ 0 merge w0 w0
$ 0 apply --qrels q --sheet wu e f
401 0 d1 2
401 0 d2 0
401 0 d3 0
$ 0 apply --sheet=wn a --qrels q
401 0 d1 -1
401 0 d2 7
$ 0 apply --qrels q --sheet wm e
401 0 d1 1
401 0 d2 0
$ 0 apply --qrels qn --sheet w0 a
401 0 d1 1
401 0 d2 -1
";

/// Sheets that are refused, entries without a place, what goes before a sheet, and words that are no command.
pub const NO_SHEETS: &str = "
$ 1 merge ws w1 x
refused: w1 line 2: BadByte
$ 1 merge w2
refused: w2 line 1: BadFieldCount
$ 1 merge wt w3
refused: w3 line 1: BadStamp
$ 1 merge w4 w3
refused: w4 line 1: BadGrade
$ 1 apply --qrels q --sheet w3 a
refused: w3 line 1: BadStamp
$ 1 apply --qrels q --sheet wx e f
refused: wx: UnknownDocument 401 d8
$ 1 apply --qrels q --sheet wy e f
refused: wy: UnknownTopic 499
$ 1 apply --qrels q --sheet x a A=b
refused: A: SameName
$ 1 apply --qrels q --sheet x a2
refused: a2 line 1: BadFieldCount
$ 3 merge ws x w3
fault: outside
$ 3 apply --qrels q --sheet x a
fault: outside
$ 2 merge
usage: desk COMMAND --qrels FILE --measure NAME [--level N] RUN...
$ 2 merge --qrels q ws
usage: desk COMMAND --qrels FILE --measure NAME [--level N] RUN...
$ 2 merge -ws
usage: desk COMMAND --qrels FILE --measure NAME [--level N] RUN...
$ 2 apply --qrels q a
usage: desk COMMAND --qrels FILE --measure NAME [--level N] RUN...
$ 2 apply --sheet ws a
usage: desk COMMAND --qrels FILE --measure NAME [--level N] RUN...
$ 2 apply --qrels q --sheet ws
usage: desk COMMAND --qrels FILE --measure NAME [--level N] RUN...
$ 2 apply --qrels q --sheet ws --measure P_1 a
usage: desk COMMAND --qrels FILE --measure NAME [--level N] RUN...
$ 2 apply --qrels q --sheet ws --level 1 a
usage: desk COMMAND --qrels FILE --measure NAME [--level N] RUN...
$ 2 apply --qrels q --sheet ws --sheet ws a
usage: desk COMMAND --qrels FILE --measure NAME [--level N] RUN...
";
