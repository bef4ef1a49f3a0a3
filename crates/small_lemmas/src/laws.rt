//! A law of whole numbers, the contract of a function that does nothing.
ghost use Rattle.std.specs.Prelude.{◌≡◌, ℤ, neg_ℤ};

/// A number negated twice is the number.
pub fn negating_twice_changes_nothing()
    ensures { (z : ℤ) → neg_ℤ (neg_ℤ z) ≡ z }
{}
