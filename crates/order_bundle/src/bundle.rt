//! What a bundle holds.
ghost use Rattle.std.specs.Prelude.{◌≡◌};

use desk_model::{MeasureName, Name};
use order_certificate::NameList;
use std::marker::Model;

/// Documents of a topic by their numbers among its document lines.
#[derive(Drop)]
pub struct PickList {
    picks: Vec<u32>,
}

impl Model for PickList {
    ghost use Rattle.std.specs.Prelude.{List, ℕ};

    ghost Value = { List ℕ };

    ghost view = { λ p. p.picks.items };
}

impl PickList {
    /// A list of numbers, each from 0, in this order.
    pub fn new(picks: Vec<u32>) -> PickList
        ensures { result ≡ picks.items }
    {
        PickList { picks }
    }

    /// The numbers, the first at place 0.
    pub fn as_slice(&self) -> &[u32]
        ensures { result.now ≡ self.now }
    {
        self.picks.as_slice()
    }
}

/// A topic, and the documents that lists may pick.
#[derive(Drop)]
pub struct TopicNames {
    /// The name of the topic.
    pub topic: Name,
    /// The names of documents, ascending.
    pub docs: NameList,
}

/// Topics with their documents.
#[derive(Drop)]
pub struct BundleTopics {
    topics: Vec<TopicNames>,
}

impl Model for BundleTopics {
    ghost use Rattle.std.specs.Prelude.{List};
    ghost use Rattle.order_bundle.specs.declared.bundle.TopicNames.{TopicNames};

    ghost Value = { List TopicNames };

    ghost view = { λ t. t.topics.items };
}

impl BundleTopics {
    /// Topics in this order.
    pub fn new(topics: Vec<TopicNames>) -> BundleTopics
        ensures { result ≡ topics.items }
    {
        BundleTopics { topics }
    }

    /// The topics, the first at place 0.
    pub fn as_slice(&self) -> &[TopicNames]
        ensures { result.now ≡ self.now }
    {
        self.topics.as_slice()
    }
}

/// Two numbers beside the difference of two runs on a topic, in units of the measure.
#[derive(Clone, Copy)]
pub struct Bound {
    /// A number that the difference is never below.
    pub low: i128,
    /// A number that the difference is never above; 0 where the claim is `above`, which has none.
    pub high: i128,
}

/// One bound for each topic.
#[derive(Drop)]
pub struct PairBounds {
    bounds: Vec<Bound>,
}

impl Model for PairBounds {
    ghost use Rattle.std.specs.Prelude.{List};
    ghost use Rattle.order_bundle.specs.declared.bundle.Bound.{Bound};

    ghost Value = { List Bound };

    ghost view = { λ b. b.bounds.items };
}

impl PairBounds {
    /// Bounds in the order of their topics.
    pub fn new(bounds: Vec<Bound>) -> PairBounds
        ensures { result ≡ bounds.items }
    {
        PairBounds { bounds }
    }

    /// The bounds, that of the first topic at place 0.
    pub fn as_slice(&self) -> &[Bound]
        ensures { result.now ≡ self.now }
    {
        self.bounds.as_slice()
    }
}

/// Two completions of a topic, each by the unjudged documents that it makes relevant.
#[derive(Drop)]
pub struct Picks {
    /// Those of the completion in which the first run does worse.
    pub low: PickList,
    /// Those of the completion in which the first run does better.
    pub high: PickList,
}

/// Two lists for each topic.
#[derive(Drop)]
pub struct PairPicks {
    picks: Vec<Picks>,
}

impl Model for PairPicks {
    ghost use Rattle.std.specs.Prelude.{List};
    ghost use Rattle.order_bundle.specs.declared.bundle.Picks.{Picks};

    ghost Value = { List Picks };

    ghost view = { λ p. p.picks.items };
}

impl PairPicks {
    /// Lists in the order of their topics.
    pub fn new(picks: Vec<Picks>) -> PairPicks
        ensures { result ≡ picks.items }
    {
        PairPicks { picks }
    }

    /// The lists, those of the first topic at place 0.
    pub fn as_slice(&self) -> &[Picks]
        ensures { result.now ≡ self.now }
    {
        self.picks.as_slice()
    }
}

/// What is claimed of a pair of runs, with its evidence topic by topic.
#[derive(Drop)]
pub enum PairEvidence {
    /// In every completion the first run's mean is greater: numbers that the differences are never below.
    Above(PairBounds),
    /// In every completion the two means are equal: numbers that the differences are never below and never above.
    Equal(PairBounds),
    /// Two completions differ on the order: the documents that each makes relevant.
    Open(PairPicks),
}

/// A claim on two runs, by their numbers among the runs of the bundle, from 0.
#[derive(Drop)]
pub struct PairClaim {
    pub first: u32,
    pub second: u32,
    pub evidence: PairEvidence,
}

/// Claims, each on a pair of its own.
#[derive(Drop)]
pub struct PairClaims {
    claims: Vec<PairClaim>,
}

impl Model for PairClaims {
    ghost use Rattle.std.specs.Prelude.{List};
    ghost use Rattle.order_bundle.specs.declared.bundle.PairClaim.{PairClaim};

    ghost Value = { List PairClaim };

    ghost view = { λ c. c.claims.items };
}

impl PairClaims {
    /// Claims in this order.
    pub fn new(claims: Vec<PairClaim>) -> PairClaims
        ensures { result ≡ claims.items }
    {
        PairClaims { claims }
    }

    /// The claims, the first at place 0.
    pub fn as_slice(&self) -> &[PairClaim]
        ensures { result.now ≡ self.now }
    {
        self.claims.as_slice()
    }
}

/// Claims on the order of many pairs of runs under one measure and one level, with their evidence.
///
/// Each bundle is within the limits of its form, by its type: runs, topics and the documents of a topic ascend by
/// name, a claim names two different runs of the bundle, claims ascend by the smaller and then the greater of the
/// two numbers, evidence has one row for each topic, and each list picks ascending documents of its topic.
#[derive(Drop)]
pub struct Bundle {
    pub measure: MeasureName,
    /// The least grade of a relevant document, from 1 to 1,000.
    pub level: u32,
    /// The names of 2 to 256 runs.
    pub runs: NameList,
    /// 1 to 10,000 topics.
    pub topics: BundleTopics,
    pub claims: PairClaims,
}

impl Model for Bundle {
    ghost use Rattle.order_bundle.specs.Bundle.{Bundle as View, IsBundle};

    ghost Value = { View };

    ghost view = { λ b. record { measure = b.measure; level = b.level; runs = b.runs; topics = b.topics; claims = b.claims } };

    ghost invariant = { λ b. IsBundle (record { measure = b.measure; level = b.level; runs = b.runs; topics = b.topics; claims = b.claims }) };
}

impl Bundle {
    ghost use Rattle.order_bundle.specs.Bundle.{IsBundle};

    /// That the bundle is within the form, as each is by its type. It costs nothing, and is called where a proof
    /// needs the fact.
    pub fn valid(&self)
        ensures { IsBundle self.now }
    {
        let _ = &self.level;
    }
}
