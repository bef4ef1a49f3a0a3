// Certificates.

/// Those that `certify` prints, each of which `verify` accepts.

// In the first, A has one of three relevant documents where z1 and z2 are. In the others, where z1 is relevant A scores 1/2 under recall_1, Rprec and map. Under rbp_0.4 the least difference of A and B is 0.6 less B's tail. With
// z1 relevant A is not above C, else it is.
pub const CERTIFIED: &str = "
$ 0 certify --all --qrels q --measure recall_1 a b d
desk-certificate 2
measure recall_1
level 1
runs 3
run A
run B
run C
topics 1
topic 401 1
doc z1
claims 3
claim above 0 1
bound 333333333333333333
claim open 0 2
low 1
pick 0
high 0
claim open 1 2
low 1
pick 0
high 0
end
$ 0 certify --qrels q --measure P_1 a b c D=a
desk-certificate 1
measure P_1
level 1
first A
second B
claim above
topics 1
topic 401 1
end
$ 0 certify --qrels q --measure P_1 b a c D=a
desk-certificate 1
measure P_1
level 1
first A
second B
claim above
topics 1
topic 401 1
end
$ 0 certify --qrels q --measure P_1 a D=a b c
desk-certificate 1
measure P_1
level 1
first A
second D
claim equal
topics 1
topic 401 0 0
end
$ 0 certify --qrels q --measure P_1 a c b D=a
desk-certificate 1
measure P_1
level 1
first A
second C
claim open
topics 1
low 401 1
doc z1
high 401 0
end
$ 0 certify --qrels q --measure recall_1 a b c D=a
desk-certificate 1
measure recall_1
level 1
first A
second B
claim above
topics 1
topic 401 500000000000000000
end
$ 0 certify --qrels q --measure recall_1 a D=a b c
desk-certificate 1
measure recall_1
level 1
first A
second D
claim equal
topics 1
topic 401 0 0
end
$ 0 certify --qrels q --measure recall_1 a c b D=a
desk-certificate 1
measure recall_1
level 1
first A
second C
claim open
topics 1
low 401 1
doc z1
high 401 0
end
$ 0 certify --qrels q --measure Rprec a b c D=a
desk-certificate 1
measure Rprec
level 1
first A
second B
claim above
topics 1
topic 401 500000000000000000
end
$ 0 certify --qrels q --measure Rprec a D=a b c
desk-certificate 1
measure Rprec
level 1
first A
second D
claim equal
topics 1
topic 401 0 0
end
$ 0 certify --qrels q --measure Rprec a c b D=a
desk-certificate 1
measure Rprec
level 1
first A
second C
claim open
topics 1
low 401 1
doc z1
high 401 0
end
$ 0 certify --qrels q --measure map a b c D=a
desk-certificate 1
measure map
level 1
first A
second B
claim above
topics 1
topic 401 500000000000000000
end
$ 0 certify --qrels q --measure map a D=a b c
desk-certificate 1
measure map
level 1
first A
second D
claim equal
topics 1
topic 401 0 0
end
$ 0 certify --qrels q --measure map a c b D=a
desk-certificate 1
measure map
level 1
first A
second C
claim open
topics 1
low 401 1
doc z1
high 401 0
end
$ 0 certify --qrels q --measure recip_rank a b c D=a
desk-certificate 1
measure recip_rank
level 1
first A
second B
claim above
topics 1
topic 401 1000000000000000000
end
$ 0 certify --qrels q --measure recip_rank a D=a b c
desk-certificate 1
measure recip_rank
level 1
first A
second D
claim equal
topics 1
topic 401 0 0
end
$ 0 certify --qrels q --measure recip_rank a c b D=a
desk-certificate 1
measure recip_rank
level 1
first A
second C
claim open
topics 1
low 401 1
doc z1
high 401 0
end
$ 0 certify --qrels q --measure rbp_0.4 a b c D=a
desk-certificate 1
measure rbp_0.4
level 1
first A
second B
claim above
topics 1
topic 401 200000000000000000
end
$ 0 certify --qrels q --measure rbp_0.4 a c b D=a
desk-certificate 1
measure rbp_0.4
level 1
first A
second C
claim open
topics 1
low 401 1
doc z1
high 401 0
end
$ 0 certify --measure recip_rank --qrels q a -- --b
desk-certificate 1
measure recip_rank
level 1
first A
second B
claim above
topics 1
topic 401 1000000000000000000
end
";
