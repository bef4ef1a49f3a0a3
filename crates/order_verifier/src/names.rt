// The names of a certificate against those of a desk.
ghost use Rattle.std.specs.Prelude.{◌≡◌, ◌≤◌, length, map, MatchOption, MatchResult};
ghost use Rattle.desk_model.specs.Desk.{IsDesk};
ghost use Rattle.desk_model.specs.Limits.{TOPIC_LIMIT};
ghost use Rattle.order_certificate.specs.Certificate.{IsWritable};
ghost use Rattle.order_certificate.specs.Claim.{topics_of};
ghost use Rattle.order_verifier.specs.Refusal.{HasWrongRun, HaveWrongTopic, NamesRuns, topic_names};

use desk_model::Desk;
use order_certificate::{Certificate, CertificatePlace, Evidence, TopicBound, TopicWitness};

/// Two runs of a desk, by their numbers.
#[derive(Clone, Copy)]
pub struct RunNumbers {
    pub first: u32,
    pub second: u32,
}

/// The two runs of a certificate, or the place of the first that is none of the desk's.
pub fn runs_of(desk: &Desk, certificate: &Certificate) -> Result<RunNumbers, CertificatePlace>
    ensures { MatchResult result (λ runs. NamesRuns certificate.now desk.now runs.first runs.second)
        (HasWrongRun certificate.now desk.now) }
{
    let Some(first) = desk.find_run(certificate.first.as_bytes()) else {
        return Err(CertificatePlace::FirstRun);
    };
    match desk.find_run(certificate.second.as_bytes()) {
        Some(second) if second != first => Ok(RunNumbers { first, second }),
        _ => Err(CertificatePlace::SecondRun),
    }
}

/// What a certificate has on one topic.
trait OnTopic {
    ghost use Rattle.std.specs.Prelude.{List, ℕ};

    ghost topic_of: { Self → List ℕ };

    /// The name of the topic.
    fn topic(&self) -> &[u8]
        ensures { result.now ≡ topic_of self.now };
}

impl OnTopic for TopicBound {
    ghost topic_of = { λ b. b.topic };

    fn topic(&self) -> &[u8] {
        self.topic.as_bytes()
    }
}

impl OnTopic for TopicWitness {
    ghost topic_of = { λ w. w.topic };

    fn topic(&self) -> &[u8] {
        self.topic.as_bytes()
    }
}

/// The first topic whose name is not that of the desk's topic at its place.
fn first_wrong<T: OnTopic>(desk: &Desk, items: &[T]) -> Option<CertificatePlace>
    requires count { length items.now ≡ length desk.now.topics }
    requires few { length items.now ≤ TOPIC_LIMIT }
    ensures { MatchOption result (map T.topic_of items.now ≡ topic_names desk.now)
        (HaveWrongTopic (map T.topic_of items.now) (topic_names desk.now)) }
{
    let mut topic = 0;
    for item in items {
        if item.topic() != desk.topic(topic).name() {
            return Some(CertificatePlace::Topic { topic });
        }
        topic += 1;
    }
    None
}

/// The same, or the number of topics where it is not that of the desk's.
fn wrong_among<T: OnTopic>(desk: &Desk, items: &[T]) -> Option<CertificatePlace>
    requires { length items.now ≤ TOPIC_LIMIT }
    ensures place { MatchOption result (map T.topic_of items.now ≡ topic_names desk.now)
        (HaveWrongTopic (map T.topic_of items.now) (topic_names desk.now)) }
    ensures desk { IsDesk desk.now }
{
    if items.len() != desk.topic_count() as usize {
        return Some(CertificatePlace::TopicCount);
    }
    first_wrong(desk, items)
}

/// The first place by which the topics of evidence differ from a desk's.
pub fn wrong_topic(desk: &Desk, evidence: &Evidence) -> Option<CertificatePlace>
    requires { IsWritable evidence.now }
    ensures place { MatchOption result (topics_of evidence.now ≡ topic_names desk.now)
        (HaveWrongTopic (topics_of evidence.now) (topic_names desk.now)) }
    ensures desk { IsDesk desk.now }
{
    match evidence {
        Evidence::Above(bounds) | Evidence::Equal(bounds) => wrong_among(desk, bounds.as_slice()),
        Evidence::Open(witnesses) => wrong_among(desk, witnesses.as_slice()),
    }
}
