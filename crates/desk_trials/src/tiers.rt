// Tiers of runs, and words that ask for none. The expected texts are worked out by hand.

/// Tiers of runs, in several orders of the words.
// Of `qb` A has two relevant documents, B one and C none, so the pair of A and C has B between. Of `qw` X has the relevant document on
// two topics and Y on the third: X wins two and loses one. W has an unjudged document on the third, and X is above W on the two others
// alone; W against Y and Z is open. Two equal runs, and a single one, are of one tier.
pub const TIERS: &str = "
$ 0 tiers --qrels q --measure recall_1 a b d
measure recall_1
level 1
topics 1
runs 3
tiers 2
system A 1
system B 2
system C 1
cover A B 1 0
$ 0 tiers --qrels qb --measure P_2 b1 b2 b3
measure P_2
level 1
topics 1
runs 3
tiers 3
system A 1
system B 2
system C 3
cover A B 1 0
cover B C 1 0
$ 0 tiers --qrels q --measure P_10 X=e Y=e
measure P_10
level 1
topics 1
runs 2
tiers 1
system X 1
system Y 1
$ 0 tiers --qrels q --measure recall_1 d b a
measure recall_1
level 1
topics 1
runs 3
tiers 2
system C 1
system B 2
system A 1
cover A B 1 0
$ 0 tiers --qrels qb --measure P_2 b3 b1 b2
measure P_2
level 1
topics 1
runs 3
tiers 3
system C 3
system A 1
system B 2
cover A B 1 0
cover B C 1 0
$ 0 tiers --qrels qw --measure P_1 tx ty tz tw
measure P_1
level 1
topics 3
runs 4
tiers 3
system X 1
system Y 2
system Z 3
system W 2
cover X Y 2 1
cover X W 2 0
cover Y Z 1 0
$ 0 tiers --qrels qw --measure P_1 tw tz ty tx
measure P_1
level 1
topics 3
runs 4
tiers 3
system W 2
system Z 3
system Y 2
system X 1
cover Y Z 1 0
cover X W 2 0
cover X Y 2 1
$ 0 tiers --qrels q --measure rbp_0.40 a b d
measure rbp_0.4
level 1
topics 1
runs 3
tiers 2
system A 1
system B 2
system C 1
cover A B 1 0
$ 0 tiers d=d --level=2 a --measure map --qrels=-q -- --b
measure map
level 2
topics 1
runs 3
tiers 1
system d 1
system A 1
system B 1
$ 0 tiers --qrels qh --measure Rprec --level 1000 --depth 1 a b
measure Rprec
level 1000
depth 1
topics 1
runs 2
tiers 2
system A 1
system B 2
cover A B 1 0
$ 0 tiers --qrels q --measure recip_rank b
measure recip_rank
level 1
topics 1
runs 1
tiers 1
system B 1
";

/// Files that are refused or missing, and words that are no command.
pub const NO_TIERS: &str = "
$ 1 tiers --qrels q --measure recall_1 A=b a
refused: A: SameName
$ 1 tiers --qrels q --measure P_2 a a2
refused: a2 line 1: BadFieldCount
$ 1 tiers --qrels q3 --measure P_2 x
refused: q3 line 2: BadGrade
$ 3 tiers --qrels q --measure P_2 a x
fault: outside
$ 2 tiers --qrels q a
usage: desk COMMAND --qrels FILE --measure NAME [--level N] RUN...
$ 2 tiers --measure P_2 a
usage: desk COMMAND --qrels FILE --measure NAME [--level N] RUN...
$ 2 tiers --qrels q --measure P_2
usage: desk COMMAND --qrels FILE --measure NAME [--level N] RUN...
$ 2 tiers --qrels q --measure P_0 a
usage: desk COMMAND --qrels FILE --measure NAME [--level N] RUN...
$ 2 tiers --qrels q --measure tiers a
usage: desk COMMAND --qrels FILE --measure NAME [--level N] RUN...
$ 2 tiers --qrels q --measure P_2 --level 0 a
usage: desk COMMAND --qrels FILE --measure NAME [--level N] RUN...
$ 2 tiers --qrels q --measure P_2 --level 1001 a
usage: desk COMMAND --qrels FILE --measure NAME [--level N] RUN...
$ 2 tiers --qrels q --measure P_2 --level 1 --level 1 a
usage: desk COMMAND --qrels FILE --measure NAME [--level N] RUN...
$ 2 tiers --qrels q --measure P_2 --depth 0 a
usage: desk COMMAND --qrels FILE --measure NAME [--level N] RUN...
$ 2 tiers --qrels q --measure P_2 --depth 10001 a
usage: desk COMMAND --qrels FILE --measure NAME [--level N] RUN...
$ 2 tiers --qrels q --measure P_2 --greatest 2 a
usage: desk COMMAND --qrels FILE --measure NAME [--level N] RUN...
$ 2 tiers --qrels q --measure P_2 --all a b
usage: desk COMMAND --qrels FILE --measure NAME [--level N] RUN...
$ 2 tiers --qrels q --measure P_2 --cert v a
usage: desk COMMAND --qrels FILE --measure NAME [--level N] RUN...
$ 2 tiers --qrels q --measure P_2 =a
usage: desk COMMAND --qrels FILE --measure NAME [--level N] RUN...
$ 2 tiers --help
usage: desk COMMAND --qrels FILE --measure NAME [--level N] RUN...
$ 2 tier --qrels q --measure P_2 a
usage: desk COMMAND --qrels FILE --measure NAME [--level N] RUN...
";
