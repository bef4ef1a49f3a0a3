//! Cases of the definitions that most rests on, each a clause of a function that does nothing. Topic 401
//! has d1 judged relevant, d2 judged and not relevant, and d3 unjudged. Run A retrieved d1 and d3, run B
//! d2 and d3.
ghost use Rattle.std.specs.Prelude.{◌≡◌, List, [], ◌∷◌, true, false, Some, None, pos, negsuc, codes};
ghost use Rattle.std.specs.declared.cmp.Ordering.TheVariants.{Less};
ghost use Rattle.desk_model.specs.Closing.{closed_under};
ghost use Rattle.desk_model.specs.Desk.{topics_under};
ghost use Rattle.desk_model.specs.Fraction.{IsSame};
ghost use Rattle.desk_model.specs.Graded.{mark_within};
ghost use Rattle.desk_model.specs.Mark.{mark_of};
ghost use Rattle.desk_model.specs.Name.{name_cmp};
ghost use Rattle.desk_model.specs.Order.{run_mean};
ghost use Rattle.desk_model.specs.Score.{score};
ghost use Rattle.desk_model.specs.Verdict.{verdict};
ghost use Rattle.desk_model.specs.declared.types.Mark.TheVariants.{Unjudged, Relevant, Other};
ghost use Rattle.desk_model.specs.declared.types.MeasureName.TheVariants.{Precision, Recall, RPrecision, Reciprocal, Biased, AveragePrecision};
ghost use Rattle.desk_model.specs.declared.types.Verdict.TheVariants.{Above, Open, Close};
ghost use Rattle.measure_laws.specs.AverageEnds.{average_ends};
ghost use Rattle.measure_laws.specs.Cases.{least_truth};
ghost use Rattle.measure_laws.specs.Weights.{weight_of};
ghost use Rattle.order_tiers.specs.Order.{wins_in, losses_in};
ghost use Rattle.pair_table.specs.Sums.{swapped_totals};
ghost use Rattle.desk_laws.specs.Example.{two_runs, two_topics, marks_401, a, b, d3_false, d3_true, no_document, without_tails, parts, sums, ends};

/// At level 2 a grade of 2 is relevant, a grade of 1 is not, and a document without a grade is unjudged.
pub fn marks_at_level_two()
    ensures at_the_level { mark_of (Some (pos 2)) 2 ≡ Relevant }
    ensures below { mark_of (Some (pos 1)) 2 ≡ Other }
    ensures negative { mark_of (Some (negsuc 0)) 2 ≡ Unjudged }
    ensures none { mark_of None 2 ≡ Unjudged }
{}

/// Under depth 1 a document without a grade that a run ranks second is closed: it counts as one judged and not relevant.
/// One that a run ranks first stays unjudged, and a grade counts wherever its document is ranked.
pub fn marks_under_a_depth()
    ensures within { mark_within None 1 true ≡ Unjudged }
    ensures outside { mark_within None 1 false ≡ Other }
    ensures judged_outside { mark_within (Some (pos 1)) 1 false ≡ Relevant }
    ensures negative_outside { mark_within (Some (negsuc 0)) 1 false ≡ Other }
    ensures pool { closed_under two_runs (Some 1) ((Unjudged ∷ Unjudged ∷ Unjudged ∷ []) ∷ []) ≡
        (Unjudged ∷ Unjudged ∷ Other ∷ []) ∷ [] }
    ensures deeper { closed_under two_runs (Some 2) ((Unjudged ∷ Unjudged ∷ Unjudged ∷ []) ∷ []) ≡
        (Unjudged ∷ Unjudged ∷ Unjudged ∷ []) ∷ [] }
    ensures no_depth { closed_under two_runs None ((Unjudged ∷ Unjudged ∷ Unjudged ∷ []) ∷ []) ≡
        (Unjudged ∷ Unjudged ∷ Unjudged ∷ []) ∷ [] }
{}

/// d1 comes before d10, and d10 before d2: bytes are compared, and not numbers.
pub fn names_by_their_bytes()
    ensures prefix { name_cmp (codes "d1") (codes "d10") ≡ Less }
    ensures digits { name_cmp (codes "d10") (codes "d2") ≡ Less }
{}

/// Precision divides by k also where the ranking is shorter. Recall and R-precision are 0 where no document
/// is relevant, and reciprocal rank where none that is was retrieved. Rank-biased precision at 0.5 gives
/// 1/2, 1/4 and 1/8 to the first three ranks, the tail among them. Average precision divides the sum of the precisions at
/// the ranks of relevant documents by the number of all relevant ones.
pub fn scores_in_a_completion()
    ensures precision { score (Precision 2) 3 d3_true a [] ≡ parts 2 2 }
    ensures precision_beyond_the_ranking { score (Precision 5) 3 d3_true a [] ≡ parts 2 5 }
    ensures recall { score (Recall 1) 3 d3_true a [] ≡ parts 1 2 }
    ensures recall_with_no_relevant_document { score (Recall 2) 3 no_document a [] ≡ parts 0 1 }
    ensures r_precision { score RPrecision 3 d3_true b [] ≡ parts 1 2 }
    ensures r_precision_of_an_empty_ranking { score RPrecision 3 d3_true [] [] ≡ parts 0 2 }
    ensures reciprocal_rank { score Reciprocal 3 d3_true b [] ≡ parts 1 2 }
    ensures reciprocal_rank_of_an_empty_ranking { score Reciprocal 3 d3_true [] [] ≡ parts 0 1 }
    ensures biased { score (Biased 5 10) 3 d3_true a [] ≡ parts 75 100 }
    ensures biased_with_a_tail { score (Biased 5 10) 3 d3_false a (true ∷ []) ≡ parts 625 1000 }
    ensures average { score AveragePrecision 3 d3_true b [] ≡ parts 1 4 }
    ensures average_of_all { score AveragePrecision 3 d3_true a [] ≡ parts 4 4 }
    ensures average_with_no_relevant_document { score AveragePrecision 3 no_document a [] ≡
        parts 0 1 }
{}

/// Run A lacks the second of two topics, and scores 0 there: (1/2 + 0) / 2.
pub fn mean_of_a_run_without_the_topic()
    ensures { IsSame (run_mean (Precision 2) 0
        (topics_under two_topics (marks_401 ∷ (Relevant ∷ []) ∷ []))
        (without_tails d3_false ∷ without_tails d3_true ∷ [])) (parts 1 4) }
{}

/// Of a pair whose least difference is below 0 and whose greatest is 0 the verdict is open. Equal means
/// whose thirds were rounded apart are close.
pub fn verdicts_of_sums()
    ensures above { verdict (sums (pos 1) (pos 1) (pos 1) (pos 1)) ≡ Above }
    ensures open { verdict (sums (negsuc 0) (negsuc 0) (pos 0) (pos 0)) ≡ Open }
    ensures close { verdict (sums (negsuc 0) (pos 1) (negsuc 0) (pos 1)) ≡ Close }
    ensures swapped_totals { swapped_totals (sums (pos 1) (pos 1) (pos 2) (pos 2)) ≡
        sums (negsuc 1) (negsuc 1) (negsuc 0) (negsuc 0) }
{}

/// Of three topics the first is won, as its least difference is above 0, and the second lost, as its greatest is below. The ends of
/// the third are on both sides of 0, so it is neither.
pub fn topics_of_a_covering_pair()
    ensures wins { wins_in (ends (pos 1) (pos 1) (pos 3) (pos 3) ∷
        ends (negsuc 2) (negsuc 2) (negsuc 0) (negsuc 0) ∷
        ends (negsuc 0) (negsuc 0) (pos 1) (pos 1) ∷ []) ≡ 1 }
    ensures losses { losses_in (ends (pos 1) (pos 1) (pos 3) (pos 3) ∷
        ends (negsuc 2) (negsuc 2) (negsuc 0) (negsuc 0) ∷
        ends (negsuc 0) (negsuc 0) (pos 1) (pos 1) ∷ []) ≡ 1 }
{}

/// Of two runs of the relevant r and the unjudged u the first has r before u and the second u before r. The first scores 1 in
/// both completions under average precision, the second 1 where u is relevant and else 1/2. The least case makes u relevant,
/// and the most case does not.
pub fn averages_of_a_pair()
    ensures ends { average_ends (Relevant ∷ Unjudged ∷ []) (0 ∷ 1 ∷ []) (1 ∷ 0 ∷ []) ≡
        ends (pos 0) (pos 0) (pos 500000000000000000) (pos 500000000000000000) }
    ensures least { least_truth AveragePrecision (Relevant ∷ Unjudged ∷ []) (0 ∷ 1 ∷ []) (1 ∷ 0 ∷
        []) 1 ≡ true }
    ensures most { least_truth AveragePrecision (Relevant ∷ Unjudged ∷ []) (1 ∷ 0 ∷ []) (0 ∷ 1 ∷ [])
        1 ≡ false }
{}

/// The judged d1 tells A from B under precision at 2, and the unjudged d3, which both have, does not. In
/// the least case of recall at 1, where A has the lead and cannot lose it, d3 is relevant all the same:
/// it makes A's 1/1 a half.
pub fn documents_of_a_pair()
    ensures weight { weight_of (Precision 2) marks_401 a b 0 ≡ 1 }
    ensures weight_of_both { weight_of (Precision 2) marks_401 a b 2 ≡ 0 }
    ensures recall { least_truth (Recall 1) marks_401 a b 2 ≡ true }
{}
