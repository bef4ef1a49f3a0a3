ghost use Rattle.std.specs.Prelude.{◌≡◌, ◌<◌, ◌≤◌, length};
ghost use Rattle.desk_model.specs.Limits.{RUN_LIMIT};
ghost use Rattle.measure_core.specs.Pairs.{runs_on, ranking_on};

use desk_model::{Desk, Ranking};
use std::marker::Model;

/// The rankings of all runs of a desk on one topic. Runs are numbered from 0.
#[derive(Drop)]
pub struct TopicRankings<'d> {
    desk: &'d Desk,
    topic: u32,
}

impl<'d> Model for TopicRankings<'d> {
    ghost use Rattle.std.specs.Prelude.{◌<◌, length};
    ghost use Rattle.measure_core.specs.Pairs.{DeskTopic};

    ghost Value = { DeskTopic };

    ghost view = { λ t. record { desk = t.desk.now; topic = t.topic } };

    ghost invariant = { λ t. t.topic < length t.desk.now.topics };
}

impl<'d> TopicRankings<'d> {
    /// Those of a topic, by its number.
    pub fn new(desk: &'d Desk, topic: u32) -> TopicRankings<'d>
        requires { topic < length desk.now.topics }
        ensures { result ≡ record { desk = desk.now; topic = topic } }
    {
        TopicRankings { desk, topic }
    }

    /// How many runs there are, at least one.
    pub fn runs(&self) -> u32
        ensures count { result ≡ runs_on self.now }
        ensures some { 0 < result }
        ensures few { result ≤ RUN_LIMIT }
    {
        self.desk.run_count()
    }

    /// The ranking of a run.
    pub fn ranking(&self, run: u32) -> &'d Ranking
        requires { run < runs_on self.now }
        ensures { result.now ≡ ranking_on self.now run }
    {
        self.desk.ranking(run, self.topic)
    }
}
