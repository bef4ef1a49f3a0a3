// The score by grades from its definition, and its extremes by a walk through every completion by grades of a topic of at
// most six documents. The persistence is a half, and G, the greatest number, at most 3. The scale is 256 * G to a score of
// 1, so that the places of lists and tails of at most eight have whole numbers.
/// What the next place is worth, and what the places so far have gained.
#[derive(Clone, Copy)]
struct Sum {
    next: i64,
    total: i64,
}

impl Sum {
    fn with(self, number: u32) -> Sum {
        Sum {
            next: self.next / 2,
            total: self
                .total
                .wrapping_add(self.next.wrapping_mul(number as i64)),
        }
    }
}

/// The number of a document, where each has two bits.
pub fn number(numbers: u32, doc: u32) -> u32 {
    numbers.wrapping_shr(doc.wrapping_mul(2)) & 3
}

fn listed(numbers: u32, docs: &[u32]) -> Sum {
    let mut sum = Sum {
        next: 128,
        total: 0,
    };
    for doc in docs {
        sum = sum.with(number(numbers, *doc));
    }
    sum
}

/// The score of a list with its tail.
pub fn score(numbers: u32, docs: &[u32], tail: &[u32]) -> i64 {
    let mut sum = listed(numbers, docs);
    for number in tail {
        sum = sum.with(*number);
    }
    sum.total
}

/// What a tail without end of places of the greatest number adds.
fn rest(greatest: u32, docs: &[u32]) -> i64 {
    listed(0, docs)
        .next
        .wrapping_mul(2)
        .wrapping_mul(greatest as i64)
}

fn allows(greatest: u32, grade: Option<i32>, number: u32) -> bool {
    match grade {
        Some(grade) if grade >= 0 => number == (grade as u32).min(greatest),
        _ => number <= greatest,
    }
}

/// Whether the numbers are those of a completion by grades.
pub fn completes(greatest: u32, grades: &[Option<i32>], numbers: u32) -> bool {
    let mut doc: u32 = 0;
    for grade in grades {
        if !allows(greatest, *grade, number(numbers, doc)) {
            return false;
        }
        doc = doc.wrapping_add(1);
    }
    numbers.wrapping_shr(doc.wrapping_mul(2)) == 0
}

/// A topic: the grades of its documents, and the two lists.
#[derive(Clone, Copy)]
pub struct Case<'a> {
    pub greatest: u32,
    pub grades: &'a [Option<i32>],
    pub first: &'a [u32],
    pub second: &'a [u32],
}

/// The extremes of the difference of two scores, and of the first score.
#[derive(Clone, Copy)]
pub struct Extremes {
    pub least: i64,
    pub most: i64,
    pub low: i64,
    pub high: i64,
}

impl Extremes {
    /// Those of no completion.
    const NONE: Extremes = Extremes {
        least: i64::MAX,
        most: i64::MIN,
        low: i64::MAX,
        high: i64::MIN,
    };

    fn with(self, first: i64, second: i64) -> Extremes {
        let difference = first.wrapping_sub(second);
        Extremes {
            least: self.least.min(difference),
            most: self.most.max(difference),
            low: self.low.min(first),
            high: self.high.max(first),
        }
    }
}

/// The extremes over all completions by grades: over every number of each unjudged document, with the tails that lie
/// furthest out.
pub fn extremes_of(case: Case<'_>) -> Extremes {
    let mut found = Extremes::NONE;
    for numbers in 0..4096 {
        if completes(case.greatest, case.grades, numbers) {
            found = found.with(
                score(numbers, case.first, &[]),
                score(numbers, case.second, &[]),
            );
        }
    }
    let first_tail = rest(case.greatest, case.first);
    let second_tail = rest(case.greatest, case.second);
    Extremes {
        least: found.least.wrapping_sub(second_tail),
        most: found.most.wrapping_add(first_tail),
        low: found.low,
        high: found.high.wrapping_add(first_tail),
    }
}

/// Whether each completion by grades with short tails lies within the extremes.
pub fn encloses(found: Extremes, case: Case<'_>, tails: &[&[u32]]) -> bool {
    for numbers in 0..4096 {
        if completes(case.greatest, case.grades, numbers)
            && !encloses_tails(found, case, numbers, tails)
        {
            return false;
        }
    }
    true
}

fn encloses_tails(found: Extremes, case: Case<'_>, numbers: u32, tails: &[&[u32]]) -> bool {
    for first in tails {
        for second in tails {
            if !is_within(found, case, numbers, (*first, *second)) {
                return false;
            }
        }
    }
    true
}

fn is_within(found: Extremes, case: Case<'_>, numbers: u32, tails: (&[u32], &[u32])) -> bool {
    if !fits(case.greatest, tails.0) || !fits(case.greatest, tails.1) {
        return true;
    }
    let first = score(numbers, case.first, tails.0);
    let second = score(numbers, case.second, tails.1);
    let difference = first.wrapping_sub(second);
    found.least <= difference
        && difference <= found.most
        && found.low <= first
        && first <= found.high
}

/// Whether a tail has no number above the greatest.
fn fits(greatest: u32, tail: &[u32]) -> bool {
    for number in tail {
        if *number > greatest {
            return false;
        }
    }
    true
}
