// How the grades of judgements are read.
ghost use Rattle.std.specs.Prelude.{◌≡◌};
ghost use Rattle.order_bundle.specs.Scoped.{IsScope};
ghost use Rattle.order_certificate.specs.Certificate.{IsLevel};

use std::marker::Model;

/// How the grades of judgements are read: the least relevant grade, and the depth of the pool, outside which a document
/// without a grade counts as not relevant.
#[derive(Clone, Copy)]
pub struct Grading {
    level: u32,
    depth: Option<u32>,
}

impl Model for Grading {
    ghost use Rattle.desk_report.specs.Grading.{Grading as View, IsGrading};

    ghost Value = { View };

    ghost view = { λ g. record { level = g.level; depth = g.depth } };

    ghost invariant = { λ g. IsGrading (record { level = g.level; depth = g.depth }) };

    ghost inverse = { λ g. record { level = g.level; depth = g.depth } };
}

impl Grading {
    /// The level is the least relevant grade, from 1 to 1,000. A depth is from 1 to 10,000.
    pub fn new(level: u32, depth: Option<u32>) -> Grading
        requires level { IsLevel level }
        requires depth { IsScope depth }
        ensures level { result.level ≡ level }
        ensures depth { result.depth ≡ depth }
    {
        Grading { level, depth }
    }

    /// The least relevant grade.
    pub fn level(&self) -> u32
        ensures value { result ≡ self.now.level }
        ensures within { IsLevel result }
    {
        self.level
    }

    /// The depth of the pool, or none where each document counts as one of the pool.
    pub fn depth(&self) -> Option<u32>
        ensures value { result ≡ self.now.depth }
        ensures within { IsScope result }
    {
        self.depth
    }
}
