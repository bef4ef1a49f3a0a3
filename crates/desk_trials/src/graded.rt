// Tables by grades, and words that are of none. The expected texts are worked out by hand.

/// Tables up to several greatest grades.
// Under rbp_0.3 the first rank is worth 0.7, and a tail holds up to 0.3. Up to grade 3 A's grade of 3 is worth 1 and B's grade of 1 a
// third: A is above B, and B's 0.233.. to 0.533.. is not settled against C's tail, which holds up to 0.3. Up to grade 1, as for grades
// from 1 on, A and B are alike, and both are above C. A document of grade -1 may yet have any grade.
pub const GRADED: &str = "
$ 0 graded --qrels qg --measure rbp_0.5 --greatest 2 a b
measure rbp_0.5
greatest 2
topics 1
runs 2
run A 0.500000 1.000000
run B 0.250000 0.750000
pair A open B -0.250000 0.750000
$ 0 graded --qrels qo --measure rbp_0.5 --greatest 1 X=a Y=a
measure rbp_0.5
greatest 1
topics 1
runs 2
run X 0.500000 1.000000
run Y 0.500000 1.000000
pair X open Y -0.500000 0.500000
$ 0 graded a --greatest=3 b --measure rbp_0.30 c --qrels qg3
measure rbp_0.3
greatest 3
topics 1
runs 3
run A 0.700000 1.000000
run B 0.233333 0.533334
run C 0.000000 0.300000
pair A above B 0.166666 0.766667
pair A above C 0.400000 1.000000
pair B open C -0.066667 0.533334
$ 0 graded --qrels qg3 --measure rbp_0.3 --greatest 1 a b c
measure rbp_0.3
greatest 1
topics 1
runs 3
run A 0.700000 1.000000
run B 0.700000 1.000000
run C 0.000000 0.300000
pair A open B -0.300000 0.300000
pair A above C 0.400000 1.000000
pair B above C 0.400000 1.000000
$ 0 graded --qrels qg3 --measure rbp_0.3 --greatest 10 c a
measure rbp_0.3
greatest 10
topics 1
runs 2
run C 0.000000 0.300000
run A 0.210000 0.510000
pair C open A -0.510000 0.090000
$ 0 graded --qrels qn --measure rbp_0.5 --greatest 2 b
measure rbp_0.5
greatest 2
topics 1
runs 1
run B 0.000000 1.000000
";

/// Files that are refused or missing, and words that are no command.
pub const NOT_GRADED: &str = "
$ 1 graded --qrels qg --measure rbp_0.5 --greatest 2 a A=b
refused: A: SameName
$ 1 graded --qrels qg --measure rbp_0.5 --greatest 2 a a2
refused: a2 line 1: BadFieldCount
$ 3 graded --qrels qg --measure rbp_0.5 --greatest 2 x
fault: outside
$ 2 graded --qrels qg --measure rbp_0.5 --greatest 11 a
usage: desk COMMAND --qrels FILE --measure NAME [--level N] RUN...
$ 2 graded --qrels qg --measure rbp_0.5 --greatest 0 a
usage: desk COMMAND --qrels FILE --measure NAME [--level N] RUN...
$ 2 graded --qrels qg --measure rbp_0.5 --greatest 01 a
usage: desk COMMAND --qrels FILE --measure NAME [--level N] RUN...
$ 2 graded --qrels qg --measure rbp_0.5 a
usage: desk COMMAND --qrels FILE --measure NAME [--level N] RUN...
$ 2 graded --qrels qg --measure rbp_0.5 --greatest 2
usage: desk COMMAND --qrels FILE --measure NAME [--level N] RUN...
$ 2 graded --qrels qg --measure P_2 --greatest 2 a
usage: desk COMMAND --qrels FILE --measure NAME [--level N] RUN...
$ 2 graded --qrels qg --measure map --greatest 2 a
usage: desk COMMAND --qrels FILE --measure NAME [--level N] RUN...
$ 2 graded --qrels qg --measure rbp_0.5 --greatest 2 --level 1 a
usage: desk COMMAND --qrels FILE --measure NAME [--level N] RUN...
$ 2 graded --qrels qg --measure rbp_0.5 --greatest 2 --depth 1 a
usage: desk COMMAND --qrels FILE --measure NAME [--level N] RUN...
$ 2 graded --qrels qg --measure rbp_0.5 --greatest 2 --all a b
usage: desk COMMAND --qrels FILE --measure NAME [--level N] RUN...
$ 2 table --qrels qg --measure rbp_0.5 --greatest 2 a
usage: desk COMMAND --qrels FILE --measure NAME [--level N] RUN...
";
