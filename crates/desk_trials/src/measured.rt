// Sessions under each measure. The expected texts are worked out by hand.

/// A pair is open, and a judgement settles it.

// A has the relevant d1, B has d2, which is not relevant, C has the unjudged z1, and D is A. Of the pairs that are open z1 weighs in
// the three with C. Once it is not relevant, A scores 1 and C 0, and only tails are left: 0.4 under rbp_0.4.
pub const MEASURED: &str = "
$ 0 session --qrels q --measure P_1 a b c D=a
> pair A C
pair A open C 0.000000 1.000000
> certify A C
desk-certificate 1
measure P_1
level 1
first A
second C
claim open
topics 1
low 401 1
doc z1
high 401 0
end
> next
next 401 z1 3
> judge ann 401 z1 0
judged 401 z1 0
> pair A C
pair A above C 1.000000 1.000000
> certify C A
desk-certificate 1
measure P_1
level 1
first A
second C
claim above
topics 1
topic 401 1
end
> next
next none
> pool 401 10000
pool 3 3 1 0
$ 0 session --qrels q --measure recall_1 a b c D=a
> pair A C
pair A open C 0.000000 1.000000
> certify A C
desk-certificate 1
measure recall_1
level 1
first A
second C
claim open
topics 1
low 401 1
doc z1
high 401 0
end
> next
next 401 z1 3
> judge ann 401 z1 0
judged 401 z1 0
> pair A C
pair A above C 1.000000 1.000000
> certify C A
desk-certificate 1
measure recall_1
level 1
first A
second C
claim above
topics 1
topic 401 1000000000000000000
end
> next
next none
> pool 401 10000
pool 3 3 1 0
$ 0 session --qrels q --measure Rprec a b c D=a
> pair A C
pair A open C 0.000000 1.000000
> certify A C
desk-certificate 1
measure Rprec
level 1
first A
second C
claim open
topics 1
low 401 1
doc z1
high 401 0
end
> next
next 401 z1 3
> judge ann 401 z1 0
judged 401 z1 0
> pair A C
pair A above C 1.000000 1.000000
> certify C A
desk-certificate 1
measure Rprec
level 1
first A
second C
claim above
topics 1
topic 401 1000000000000000000
end
> next
next none
> pool 401 10000
pool 3 3 1 0
$ 0 session --qrels q --measure map a b c D=a
> pair A C
pair A open C 0.000000 1.000000
> certify A C
desk-certificate 1
measure map
level 1
first A
second C
claim open
topics 1
low 401 1
doc z1
high 401 0
end
> next
next 401 z1 3000000000000000000
> judge ann 401 z1 0
judged 401 z1 0
> pair A C
pair A above C 1.000000 1.000000
> certify C A
desk-certificate 1
measure map
level 1
first A
second C
claim above
topics 1
topic 401 1000000000000000000
end
> next
next none
> pool 401 10000
pool 3 3 1 0
$ 0 session --qrels q --measure recip_rank a b c D=a
> pair A C
pair A open C 0.000000 1.000000
> certify A C
desk-certificate 1
measure recip_rank
level 1
first A
second C
claim open
topics 1
low 401 1
doc z1
high 401 0
end
> next
next 401 z1 3000000000000000000
> judge ann 401 z1 0
judged 401 z1 0
> pair A C
pair A above C 1.000000 1.000000
> certify C A
desk-certificate 1
measure recip_rank
level 1
first A
second C
claim above
topics 1
topic 401 1000000000000000000
end
> next
next none
> pool 401 10000
pool 3 3 1 0
$ 0 session --qrels q --measure rbp_0.4 a b c D=a
> pair A C
pair A open C -0.400000 1.000000
> certify A C
desk-certificate 1
measure rbp_0.4
level 1
first A
second C
claim open
topics 1
low 401 1
doc z1
high 401 0
end
> next
next 401 z1 1800000000000000000
> judge ann 401 z1 0
judged 401 z1 0
> pair A C
pair A above C 0.200000 1.000000
> certify C A
desk-certificate 1
measure rbp_0.4
level 1
first A
second C
claim above
topics 1
topic 401 200000000000000000
end
> next
next none
> pool 401 10000
pool 3 3 1 0
";
