// Whether what is given is what a command takes.
ghost use Rattle.std.specs.Prelude.{◌↔◌, IsTrue, map};
ghost use Rattle.std.specs.List.{All};
ghost use Rattle.command_line.specs.Given.{IsOne, IsOneAtMost, Allows, values_held};

use crate::given::Given;
use crate::row::Row;

/// Whether the command allows what is given.
pub fn allows(row: &Row, given: &Given) -> bool
    ensures { IsTrue result ↔ Allows row.now (values_held given.now) }
{
    let others = given.values(row.other).len();
    if others < row.least || others > row.most {
        return false;
    }
    if !each_is_one(row.needed, given) {
        return false;
    }
    each_is_one_at_most(row.optional, given) && each_is_one_at_most(row.flags, given)
}

// Whether each of the names has one value, which is not empty.
fn each_is_one(names: &[&str], given: &Given) -> bool
    ensures { IsTrue result ↔
        All (λ name. IsOne (values_held given.now name)) (map (λ n. n.now) names.now) }
{
    for name in names {
        if !is_one(given.values(name)) {
            return false;
        }
    }
    true
}

// Whether each of the names has no value, or one that is not empty.
fn each_is_one_at_most(names: &[&str], given: &Given) -> bool
    ensures { IsTrue result ↔
        All (λ name. IsOneAtMost (values_held given.now name)) (map (λ n. n.now) names.now) }
{
    for name in names {
        if !is_one_at_most(given.values(name)) {
            return false;
        }
    }
    true
}

fn is_one(values: &[&str]) -> bool
    ensures { IsTrue result ↔ IsOne (map (λ v. v.now) values.now) }
{
    match *values {
        [value] => !value.is_empty(),
        _ => false,
    }
}

fn is_one_at_most(values: &[&str]) -> bool
    ensures { IsTrue result ↔ IsOneAtMost (map (λ v. v.now) values.now) }
{
    values.is_empty() || is_one(values)
}
