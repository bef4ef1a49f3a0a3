// Tables, and pairs that are close. The expected texts are worked out by hand.

/// Whole tables, and a demo, which a program in another language worked out.
// A has the relevant d1, B has d2, which is not relevant, C has the unjudged z1, and D is A. Where z1 is relevant, R is 2. Under
// rbp_0.4 the weight of the first rank is 0.6, and a tail holds up to 0.4. Of `qt` each topic has three relevant documents: A and B
// score 1/3, rounded outward, on one topic each.
pub const TABLES: &str = "
$ 0 table --qrels q --measure P_1 a b c D=a
measure P_1
level 1
topics 1
runs 4
run A 1.000000 1.000000
run B 0.000000 0.000000
run C 0.000000 1.000000
run D 1.000000 1.000000
pair A above B 1.000000 1.000000
pair A open C 0.000000 1.000000
pair A equal D 0.000000 0.000000
pair B open C -1.000000 0.000000
pair B below D -1.000000 -1.000000
pair C open D -1.000000 0.000000
$ 0 table --qrels q --measure recall_1 a b c D=a
measure recall_1
level 1
topics 1
runs 4
run A 0.500000 1.000000
run B 0.000000 0.000000
run C 0.000000 0.500000
run D 0.500000 1.000000
pair A above B 0.500000 1.000000
pair A open C 0.000000 1.000000
pair A equal D 0.000000 0.000000
pair B open C -0.500000 0.000000
pair B below D -1.000000 -0.500000
pair C open D -1.000000 0.000000
$ 0 table --qrels q --measure Rprec a b c D=a
measure Rprec
level 1
topics 1
runs 4
run A 0.500000 1.000000
run B 0.000000 0.000000
run C 0.000000 0.500000
run D 0.500000 1.000000
pair A above B 0.500000 1.000000
pair A open C 0.000000 1.000000
pair A equal D 0.000000 0.000000
pair B open C -0.500000 0.000000
pair B below D -1.000000 -0.500000
pair C open D -1.000000 0.000000
$ 0 table --qrels q --measure map a b c D=a
measure map
level 1
topics 1
runs 4
run A 0.500000 1.000000
run B 0.000000 0.000000
run C 0.000000 0.500000
run D 0.500000 1.000000
pair A above B 0.500000 1.000000
pair A open C 0.000000 1.000000
pair A equal D 0.000000 0.000000
pair B open C -0.500000 0.000000
pair B below D -1.000000 -0.500000
pair C open D -1.000000 0.000000
$ 0 table --qrels q --measure recip_rank a b c D=a
measure recip_rank
level 1
topics 1
runs 4
run A 1.000000 1.000000
run B 0.000000 0.000000
run C 0.000000 1.000000
run D 1.000000 1.000000
pair A above B 1.000000 1.000000
pair A open C 0.000000 1.000000
pair A equal D 0.000000 0.000000
pair B open C -1.000000 0.000000
pair B below D -1.000000 -1.000000
pair C open D -1.000000 0.000000
$ 0 table --qrels q --measure rbp_0.4 a b c D=a
measure rbp_0.4
level 1
topics 1
runs 4
run A 0.600000 1.000000
run B 0.000000 0.400000
run C 0.000000 1.000000
run D 0.600000 1.000000
pair A above B 0.200000 1.000000
pair A open C -0.400000 1.000000
pair A open D -0.400000 0.400000
pair B open C -1.000000 0.400000
pair B below D -1.000000 -0.200000
pair C open D -1.000000 0.400000
$ 0 table a --level=2 --measure=Rprec b --qrels=-q c
measure Rprec
level 2
topics 1
runs 3
run A 0.000000 0.000000
run B 0.000000 0.000000
run C 0.000000 1.000000
pair A equal B 0.000000 0.000000
pair A open C -1.000000 0.000000
pair B open C -1.000000 0.000000
$ 0 verify --cert v --qrels q A=a -
accepted
$ 0 table --qrels qt --measure recall_3 k l
measure recall_3
level 1
topics 2
runs 2
run A 0.166666 0.166667
run B 0.166666 0.166667
pair A close B -0.000001 0.000001
$ 0 table --qrels qh --measure P_1 --level 1000 a b
measure P_1
level 1000
topics 1
runs 2
run A 1.000000 1.000000
run B 0.000000 0.000000
pair A above B 1.000000 1.000000
$ 0 demo 7
demo 7
rows 200000
judged 10084
above 0
below 0
equal 0
open 28
close 0
next 401 D1099 12
$ 0 table --qrels q --measure P_2 e f
measure P_2
level 1
topics 1
runs 2
run A 0.500000 1.000000
run B 0.000000 0.500000
pair A above B 0.500000 0.500000
$ 0 table --level=2 a --measure P_1 --qrels q
measure P_1
level 2
topics 1
runs 1
run A 0.000000 0.000000
$ 0 table --qrels q --measure recall_1 a b d
measure recall_1
level 1
topics 1
runs 3
run A 0.333333 1.000000
run B 0.000000 0.000000
run C 0.000000 0.500000
pair A above B 0.333333 1.000000
pair A open C 0.000000 1.000000
pair B open C -0.500000 0.000000
$ 0 table --qrels qp --measure Rprec a b
measure Rprec
level 1
topics 1
runs 2
run A 0.500000 1.000000
run B 0.000000 0.500000
pair A open B 0.000000 1.000000
$ 0 table --qrels qo --measure recip_rank g h
measure recip_rank
level 1
topics 1
runs 2
run A 1.000000 1.000000
run B 0.500000 1.000000
pair A open B 0.000000 0.500000
$ 0 table --qrels qo --measure map g h
measure map
level 1
topics 1
runs 2
run A 1.000000 1.000000
run B 0.500000 1.000000
pair A open B 0.000000 0.500000
$ 0 table --qrels qo --measure map X=h Y=h
measure map
level 1
topics 1
runs 2
run X 0.500000 1.000000
run Y 0.500000 1.000000
pair X equal Y 0.000000 0.000000
$ 0 table --qrels qo --measure rbp_0.5 X=a Y=a
measure rbp_0.5
level 1
topics 1
runs 2
run X 0.500000 1.000000
run Y 0.500000 1.000000
pair X open Y -0.500000 0.500000
$ 0 table --qrels qo --measure rbp_0.95 X=a Y=a
measure rbp_0.95
level 1
topics 1
runs 2
run X 0.050000 1.000000
run Y 0.050000 1.000000
pair X open Y -0.950000 0.950000
$ 0 table --qrels qo --measure rbp_0.000001 X=a Y=a
measure rbp_0.000001
level 1
topics 1
runs 2
run X 0.999999 1.000000
run Y 0.999999 1.000000
pair X open Y -0.000001 0.000001
";

/// Answers to `certify` where a pair is close.
// Under rbp_0.000001 the tail after three ranks holds up to 10^-18: one unit, and at least one unit less one. Of s and t the first
// scores 1/6 more in both completions: 1/2 and 1/3 where u is not relevant, else 1 and 5/6; but its least score is below the
// other's greatest.
pub const CLOSE: &str = "
$ 6 certify --qrels qt --measure recall_3 k l
close A B -1 1 -1 1
$ 6 certify --qrels qt --measure Rprec k l
close A B -1 1 -1 1
$ 6 certify --qrels qt --measure recip_rank k l
close A B -1 1 -1 1
$ 6 certify --qrels q --measure rbp_0.000001 X=three Y=three
close X Y -1 0 0 1
$ 6 certify --qrels qt --measure map k l
close A B -1 1 -1 1
$ 6 certify --qrels q --measure map s t
close A B -333333333333333334 166666666666666667 166666666666666666 666666666666666667
";
