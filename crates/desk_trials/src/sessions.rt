// Sessions. The expected texts are worked out by hand.

/// Lines and their replies.

pub const REPLIES: &str = "
$ 0 session --qrels q --measure P_1 a b c D=a
> pair A X
no UnknownRun
> pair X A
no UnknownRun
> pair A A
no SameRun
> certify X A
no UnknownRun
> certify A A
no SameRun
> judge ann 499 d1 1
no UnknownTopic
> judge ann 401 d9 1
no UnknownDocument
> pool 499 1
no UnknownTopic
> undo ann
no NothingToUndo
> redo ann
no NothingToRedo
> bogus
no BadLine
> quit now
no BadLine
> pool 401 10001
no BadLine
> judge ann 401 d1 1001
no BadLine
$ 0 session --qrels q --measure P_1 a b c D=a
> pair A B
pair A above B 1.000000 1.000000
> pair B A
pair B below A -1.000000 -1.000000
> pair A D
pair A equal D 0.000000 0.000000
> pair C A
pair C open A -1.000000 0.000000
> certify B A
desk-certificate 1
measure P_1
level 1
first A
second B
claim above
topics 1
topic 401 1
end
> certify A D
desk-certificate 1
measure P_1
level 1
first A
second D
claim equal
topics 1
topic 401 0 0
end
$ 0 session --qrels qt --measure recall_3 k l
> pair A B
pair A close B -0.000001 0.000001
> certify A B
close A B -1 1 -1 1
> table
measure recall_3
level 1
topics 2
runs 2
run A 0.166666 0.166667
run B 0.166666 0.166667
pair A close B -0.000001 0.000001
> next
next none
> quit
> table
$ 0 session --qrels qn --measure P_1 a b
> qrels
401 0 d1 1
401 0 d2 -1
> judge ann 401 d2 2
judged 401 d2 2
> undo ann
undone 401 d2 -
> redo ann
redone 401 d2 2
> qrels
401 0 d1 1
401 0 d2 2
> judge bob 401 d1 -5
judged 401 d1 -
> undo bob
undone 401 d1 1
> redo bob
redone 401 d1 -
$ 0 session --qrels qh --measure P_1 --level 1000 a b
> pair A B
pair A above B 1.000000 1.000000
> judge ann 401 d2 1000
judged 401 d2 1000
> pair A B
pair A equal B 0.000000 0.000000
$ 0 session --qrels q --measure P_2 e f
> judge ann 401 d3 1
judged 401 d3 1
> judge bob 401 d3 0
judged 401 d3 0
> undo ann
undone 401 d3 0
> undo bob
undone 401 d3 -
> undo bob
no NothingToUndo
$ 0 session --qrels q --measure P_2 e f
> redo bob
no NothingToRedo
> judge bob 401 d3 1
judged 401 d3 1
> undo bob
undone 401 d3 -
> \t
> judge bob 401 d3 0
judged 401 d3 0
> redo bob
no NothingToRedo
$ 0 session --qrels q --measure P_2 e f
> judge ann 401 d3 2
judged 401 d3 2
> pool 401 1
pool 2 2 1 0
> pool 401 2
pool 3 3 2 0
> qrels
401 0 d1 1
401 0 d2 0
401 0 d3 2
> undo ann
undone 401 d3 -
> redo ann
redone 401 d3 2
> certify A B
desk-certificate 1
measure P_2
level 1
first A
second B
claim above
topics 1
topic 401 1
end
> bogus
no BadLine
> quit
> undo ann
$ 0 session --qrels q --measure P_2 e f
> pair B A
pair B below A -0.500000 -0.500000
> pair A X
no UnknownRun
> pair A A
no SameRun
> judge ann 499 d1 1
no UnknownTopic
> judge ann 401 d9 1
no UnknownDocument
> pool 499 1
no UnknownTopic
> quit x
no BadLine
$ 0 session --qrels q --measure P_2 e f
> next
next none
> table
measure P_2
level 1
topics 1
runs 2
run A 0.500000 1.000000
run B 0.000000 0.500000
pair A above B 0.500000 0.500000
$ 0 session --qrels qp --measure P_1 a b
> next
next 401 d2 1
> judge ann 401 d2 1
judged 401 d2 1
> next
next none
$ 0 session --qrels qr --measure Rprec r1 r2
> next
next none
> judge ann 401 d1 1
judged 401 d1 1
> next
next 401 d2 1
> undo ann
undone 401 d1 -
> next
next none
$ 0 session --qrels q --measure rbp_0.50 A=x=y
> next
next none
> table
measure rbp_0.5
level 1
topics 1
runs 1
run A 0.500000 1.000000
";
