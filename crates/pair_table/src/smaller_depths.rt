//! What a smaller depth changes at the same judgements: it closes more documents, so what is settled under a depth is
//! settled under each smaller one. It holds under each measure. Each law is the contract of a function that
//! does nothing.
ghost use Rattle.std.specs.Prelude.{◌≡◌, ℕ, ◌≤ℤ◌, List, [], slice_get, slice_set, slice_index_or, Option, Some};
ghost use Rattle.desk_model.specs.Closing.{closed_under, IsNoDeeper};
ghost use Rattle.desk_model.specs.Desk.{Desk};
ghost use Rattle.desk_model.specs.Order.{IsAlwaysAbove, AreAlwaysEqual};
ghost use Rattle.desk_model.specs.Verdict.{verdict};
ghost use Rattle.desk_model.specs.declared.types.Mark.{Mark};
ghost use Rattle.desk_model.specs.declared.types.Mark.TheVariants.{Unjudged};
ghost use Rattle.desk_model.specs.declared.types.MeasureName.{MeasureName};
ghost use Rattle.desk_model.specs.declared.types.Verdict.TheVariants.{Above, Below, Equal};
ghost use Rattle.pair_table.specs.Narrowing.{topics_within, ForPairsWithin, ForRunsWithin};
ghost use Rattle.pair_table.specs.Refined.{AreAllRefinedBy};

/// A depth refines the marks of one that is at least as deep, and so those without a depth.
pub fn depth_refines()
    ensures { (desk : Desk) (marks : List (List Mark)) (deep depth : Option ℕ) →
        IsNoDeeper depth deep →
        AreAllRefinedBy (closed_under desk deep marks) (closed_under desk depth marks) }
{}

/// At the same judgements, what is always so without a depth is always so under each, and what is always so under a
/// depth is so under each smaller one.
pub fn orders_hold_under_smaller_depths()
    ensures above { (measure : MeasureName) (desk : Desk) (marks : List (List Mark))
        (deep depth : Option ℕ) (a b : ℕ) → IsNoDeeper depth deep →
        IsAlwaysAbove measure (topics_within desk marks deep) a b →
        IsAlwaysAbove measure (topics_within desk marks depth) a b }
    ensures equal { (measure : MeasureName) (desk : Desk) (marks : List (List Mark))
        (deep depth : Option ℕ) (a b : ℕ) → IsNoDeeper depth deep →
        AreAlwaysEqual measure (topics_within desk marks deep) a b →
        AreAlwaysEqual measure (topics_within desk marks depth) a b }
{}

/// The ends of two runs and the bounds of a run under a depth lie within those of one that is at least as deep.
pub fn depth_narrows_numbers()
    ensures least { ForPairsWithin (λ deep under. deep.least_lo ≤ℤ under.least_lo) }
    ensures most { ForPairsWithin (λ deep under. under.most_hi ≤ℤ deep.most_hi) }
    ensures low { ForRunsWithin (λ deep under. deep.lo ≤ℤ under.lo) }
    ensures high { ForRunsWithin (λ deep under. under.hi ≤ℤ deep.hi) }
{}

/// A settled word stays under a depth that is no deeper.
pub fn settled_words_hold_under_smaller_depths()
    ensures above { ForPairsWithin (λ deep under. verdict deep ≡ Above → verdict under ≡ Above) }
    ensures below { ForPairsWithin (λ deep under. verdict deep ≡ Below → verdict under ≡ Below) }
    ensures equal { ForPairsWithin (λ deep under. verdict deep ≡ Equal → verdict under ≡ Equal) }
{}

/// Where a document that is unjudged under a depth gets a mark, the marks under the depth are refined.
pub fn judging_open_documents_refines()
    ensures { (desk : Desk) (depth : Option ℕ) (marks : List (List Mark)) (topic doc : ℕ)
        (mark : Mark) →
        slice_get (slice_index_or (closed_under desk depth marks) topic []) doc ≡ Some Unjudged →
        AreAllRefinedBy (closed_under desk depth marks)
        (closed_under desk depth
        (slice_set marks topic (slice_set (slice_index_or marks topic []) doc mark))) }
{}
