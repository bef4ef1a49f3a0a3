// Judgements, runs and certificates in memory.
use crate::calls::parts_of;
use crate::outside::FailingCall;
use crate::run::calls;
use desk_outside::MemShelf;
use std::alloc::{AllocError, Global};

/// Files, each a line `= NAME` and then its bytes. Judgements that are refused have names in q, runs in a, certificates in v. Sheets have names in w.
const FILES: &str = "
= q
401 0 d1 1
401 0 d2 0
= qh
401 0 d1 1000
401 0 d2 999
= qg
401 0 d1 2
401 0 d2 1
= qg3
401 0 d1 3
401 0 d2 1
401 0 z1 0
= qn
401 0 d1 1
401 0 d2 -7
= qo
401 0 d1 1
= qp
401 0 d9 0
401 0 d1 1
= qt
401 0 d1 1
401 0 d2 1
401 0 d3 1
401 0 n1 0
401 0 n2 0
402 0 d1 1
402 0 d2 1
402 0 d3 1
402 0 n1 0
402 0 n2 0
= qr
401 0 d9 1
= qb
401 0 x1 1
401 0 x2 1
401 0 n 0
401 0 m 0
= qw
401 0 d1 1
401 0 n 0
402 0 d1 1
402 0 n 0
403 0 d1 1
403 0 n 0
= a
401 Q0 d1 1 9 A
= b
401 Q0 d2 1 9 B
= c
401 Q0 z1 1 9 C
= d
401 Q0 z1 1 2 C
401 Q0 z2 2 1 C
= e
401 Q0 d1 1 9 A
401 Q0 d3 2 8 A
= f
401 Q0 d2 1 9 B
401 Q0 d3 2 8 B
= g
401 Q0 d1 1 2 A
401 Q0 u 2 1 A
= h
401 Q0 u 1 2 B
401 Q0 d1 2 1 B
= s
401 Q0 u 1 2 A
401 Q0 d1 2 1 A
= t
401 Q0 u 1 3 B
401 Q0 d2 2 2 B
401 Q0 d1 3 1 B
= -q
401 0 d1 1
401 0 d2 0
= x=y
401 Q0 d1 1 9 A
= -
401 Q0 d2 1 9 B
= --b
401 Q0 d2 1 9 B
= k
401 Q0 n1 1 3 A
401 Q0 n2 2 2 A
401 Q0 d1 3 1 A
402 Q0 n1 1 1 A
= l
401 Q0 n1 1 1 B
402 Q0 n1 1 3 B
402 Q0 n2 2 2 B
402 Q0 d1 3 1 B
= r1
401 Q0 d1 1 2 A
401 Q0 d3 2 1 A
= r2
401 Q0 d1 1 2 B
401 Q0 d2 2 1 B
= b1
401 Q0 x1 1 2 A
401 Q0 x2 2 1 A
= b2
401 Q0 x1 1 2 B
401 Q0 n 2 1 B
= b3
401 Q0 n 1 2 C
401 Q0 m 2 1 C
= tw
401 Q0 n 1 1 W
402 Q0 n 1 1 W
403 Q0 u 1 1 W
= tx
401 Q0 d1 1 1 X
402 Q0 d1 1 1 X
403 Q0 n 1 1 X
= ty
401 Q0 n 1 1 Y
402 Q0 n 1 1 Y
403 Q0 d1 1 1 Y
= tz
401 Q0 n 1 1 Z
402 Q0 n 1 1 Z
403 Q0 n 1 1 Z
= three
401 Q0 d1 1 3 T
401 Q0 d2 2 2 T
401 Q0 z1 3 1 T
= q1
401 0 d\x01 1
= q2
401 0 d1
= q3

401 0 d1 1001
= q4
401 0 d1 1
401 0 d1 1
= q5

= a1
401 Q0 d\x7F 1 9 A
= a2
401 Q0 d1 1 9
= a3
401 Q0 d1 1 inf A
= a4
401 Q0 d1 1 1234567890123456789012345678901 A
= a5
401 Q0 d1 1 1e1000 A
= a6
401 Q0 d1 1 9 A
401 Q0 d1 2 8 A
= a7
= ws
5 ann 401 d3 1
7 bob 401 d1 0
= wt
5 bob 401 d3 0
7 bob 401 d1 2
= wu
7 bob 401 d1 2
5 bob 401 d3 0
= wn
9 ann 401 d2 +007
9 ann 401 d1 -5
= wm
9 ann 401 d3 -1
= wx
7 bob 401 d1 2
5 bob 401 d8 0
1 ann 499 d1 0
= wy
7 bob 401 d1 2
5 bob 499 d3 0
= w0

= w1
5 ann 401 d1 1
5 ann 401 d\x01 1
= w2
5 ann 401 d1
= w3
0 ann 401 d3 1
= w4
5 ann 401 d1 1001
= v
desk-certificate 1
measure recall_1
level 1
first A
second B
claim above
topics 1
topic 401 333333333333333333
end
= v1
= v2
desk-certificate 1
= v3
desk-certificate 1
measure P_1
level 1
first A
second B
claim below
= v4
desk-certificate 1
measure P_1
level 1
first A
second B
claim above
topics 1
topic 401 01
end
= v5
desk-certificate 1
measure P_1
level 1
first A
second B
claim above
topics 1
topic 401 1
end
end
";

/// A shelf of these files, of whose calls this one fails.
pub fn shelf(alloc: Global, failing: FailingCall) -> Result<MemShelf, AllocError> {
    let mut held = Vec::new(alloc);
    for part in parts_of(alloc, FILES, "= ")?.iter() {
        let (name, bytes) = part.split_once('\n').unwrap_or((part, ""));
        held.push((
            String::from_str(alloc, name)?,
            bytes.as_bytes().to_vec(alloc)?,
        ))?;
    }
    Ok(MemShelf::new(held, calls(alloc, failing)?))
}
