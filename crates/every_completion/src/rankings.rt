ghost use Rattle.std.specs.Prelude.{◌≤◌, length, IsTrue};
ghost use Rattle.desk_model.specs.Limits.{RANK_LIMIT};
ghost use Rattle.desk_model.specs.Ranking.{IsRanking};

/// Whether a list has different documents of a universe. A true answer is proved; a false one is not.
pub fn is_ranking(docs: &[u32], universe: u32) -> bool
    requires { length docs.now ≤ RANK_LIMIT }
    ensures { IsTrue result → IsRanking universe docs.now }
{
    match docs {
        [] => true,
        [first, rest @ ..] => {
            if *first >= universe || rest.contains(first) {
                return false;
            }
            is_ranking(rest, universe)
        }
    }
}
