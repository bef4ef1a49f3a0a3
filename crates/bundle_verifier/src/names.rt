//! The names of a bundle against those of a desk.
ghost use Rattle.std.specs.Prelude.{◌≡◌, ◌≤◌, ◌<◌, All, length, MatchOption, Some};
ghost use Rattle.desk_model.specs.Desk.{IsDesk};
ghost use Rattle.desk_model.specs.Limits.{RUN_LIMIT, TOPIC_LIMIT};
ghost use Rattle.desk_model.specs.Name.{number_of};
ghost use Rattle.order_bundle.specs.Evidence.{name_at};
ghost use Rattle.order_certificate.specs.declared.place.CertificatePlace.TheVariants.{TopicCount as C, Topic as T};
ghost use Rattle.order_verifier.specs.Refusal.{HaveWrongTopic, IsFirstFailing, topic_names};
ghost use Rattle.bundle_verifier.specs.Refusal.{IsNoRunOf, IsRunOf, IsWrongName, NamesDesk, names_of_topics};

use crate::reason::BundleName;
use desk_model::{Desk, Name};
use order_bundle::{Bundle, TopicNames};

/// The first of some names, by its number from 0, that is that of no run of a desk.
fn first_other_run(desk: &Desk, names: &[Name]) -> Option<u32>
    requires { length names.now ≤ RUN_LIMIT }
    ensures { MatchOption result (All (IsRunOf desk.now) names.now)
        (IsFirstFailing (IsRunOf desk.now) (IsNoRunOf desk.now) names.now) }
{
    let mut run = 0;
    for name in names {
        match desk.find_run(name.as_bytes()) {
            Some(_number) => run += 1,
            None => return Some(run),
        }
    }
    None
}

/// The first topic, by its number from 0, whose name is not that of the desk's topic at its place.
fn first_other_topic(desk: &Desk, topics: &[TopicNames]) -> Option<u32>
    requires count { length topics.now ≡ length desk.now.topics }
    requires few { length topics.now ≤ TOPIC_LIMIT }
    ensures { MatchOption result (names_of_topics topics.now ≡ topic_names desk.now) (λ topic.
        HaveWrongTopic (names_of_topics topics.now) (topic_names desk.now) (T topic)) }
{
    let mut topic = 0;
    for item in topics {
        if item.topic.as_bytes() != desk.topic(topic).name() {
            return Some(topic);
        }
        topic += 1;
    }
    None
}

/// The first name of a bundle that is not the desk's.
pub fn wrong_name(desk: &Desk, bundle: &Bundle) -> Option<BundleName>
    ensures name { MatchOption result (NamesDesk bundle.now desk.now)
        (IsWrongName bundle.now desk.now) }
    ensures desk { IsDesk desk.now }
{
    bundle.valid();
    let topics = bundle.topics.as_slice();
    let count = desk.topic_count() as usize;
    if let Some(run) = first_other_run(desk, bundle.runs.as_slice()) {
        return Some(BundleName::Run { run });
    }
    if topics.len() != count {
        return Some(BundleName::TopicCount);
    }
    match first_other_topic(desk, topics) {
        Some(topic) => Some(BundleName::Topic { topic }),
        None => None,
    }
}

/// The number on a desk of a run of a bundle, by its number among those.
pub fn run_number(desk: &Desk, names: &[Name], run: u32) -> u32
    requires known { All (IsRunOf desk.now) names.now }
    requires run { run < length names.now }
    ensures { number_of desk.now.runs (name_at names.now run) ≡ Some result }
{
    match desk.find_run(names[run as usize].as_bytes()) {
        Some(number) => number,
        None => unreachable!(),
    }
}
