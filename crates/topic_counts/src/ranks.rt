ghost use Rattle.std.specs.Prelude.{◌≡◌, ◌≤◌, length};
ghost use Rattle.desk_model.specs.Limits.{RANK_LIMIT};
ghost use Rattle.desk_model.specs.Ranking.{rank};
ghost use Rattle.measure_laws.specs.Ranks.{IsRankWithin};

use desk_model::Ranking;

/// The rank of a document in a run, from 1.
pub fn rank_in(run: &Ranking, doc: u32) -> Option<u32>
    requires { length run.now ≤ RANK_LIMIT }
    ensures rank { result ≡ rank run.now doc }
    ensures within { IsRankWithin RANK_LIMIT result }
{
    run.rank_of(doc)
}
