//! Places of a certificate, and the lines of its text that say what stands there.
ghost use Rattle.std.specs.Prelude.{◌≡◌, ◌≤◌, ◌<◌, ◌+◌, ◌^◌, All, length, flat_map, take};
ghost use Rattle.order_certificate.specs.Certificate.{AreLists, IsWritable, witness_lines};
ghost use Rattle.order_certificate.specs.Claim.{topics_of};
ghost use Rattle.order_certificate.specs.PlaceLines.{HasPlace, documents_of, line_of_place, line_of_topic};
ghost use Rattle.order_certificate.specs.declared.place.WitnessList.TheVariants.{Low as L};
ghost use Rattle.desk_model.specs.Limits.{DOCUMENT_LIMIT, TOPIC_LIMIT};

use crate::certificate::{Evidence, TopicWitness};

/// The list of the low completion of a topic, or that of the high one.
#[derive(Clone, Copy, PartialEq, Eq, Debug)]
pub enum WitnessList {
    Low,
    High,
}

/// A place of a certificate whose name or number a desk has to have, too.
#[derive(Clone, Copy, PartialEq, Eq, Debug)]
pub enum CertificatePlace {
    /// The name of the first run.
    FirstRun,
    /// The name of the second run.
    SecondRun,
    /// The number of topics.
    TopicCount,
    /// The name of a topic, by its number from 0.
    Topic {
        topic: u32,
    },
    /// The name of a document, by its topic, its list and its number on the list, from 0.
    Document {
        topic: u32,
        list: WitnessList,
        document: u32,
    },
}

// How many lines are on some topics.
fn line_count(witnesses: &[TopicWitness]) -> u64
    requires few { length witnesses.now ≤ TOPIC_LIMIT }
    requires lists { All AreLists witnesses.now }
    ensures count { result ≡ length (flat_map witness_lines witnesses.now) }
    ensures small { result ≤ 10 ^ 12 }
{
    let mut lines = 0;
    for witness in witnesses {
        lines += (witness.low.as_slice().len() + witness.high.as_slice().len() + 2) as u64;
    }
    lines
}

// The line that names a topic.
fn line_of_topic(evidence: &Evidence, topic: u32) -> u64
    requires form { IsWritable evidence.now }
    requires topic { topic < length (topics_of evidence.now) }
    ensures line { result ≡ line_of_topic evidence.now topic }
    ensures small { result ≤ 10 ^ 12 + 8 }
{
    match evidence {
        Evidence::Above(_) | Evidence::Equal(_) => 8 + u64::from(topic),
        Evidence::Open(witnesses) => 8 + line_count(&witnesses.as_slice()[..topic as usize]),
    }
}

// How many documents the first list of a topic has.
fn low_count(evidence: &Evidence, topic: u32) -> u64
    requires { IsWritable evidence.now }
    ensures count { result ≡ length (documents_of evidence.now topic L) }
    ensures small { result ≤ DOCUMENT_LIMIT }
{
    match evidence {
        Evidence::Above(_) | Evidence::Equal(_) => 0,
        Evidence::Open(witnesses) => match witnesses.as_slice().get(topic as usize) {
            Some(witness) => witness.low.as_slice().len() as u64,
            None => 0,
        },
    }
}

/// The number, from 1, of the line of a certificate's text that says what stands at a place of it.
pub fn line_of_place(evidence: &Evidence, place: CertificatePlace) -> u64
    requires form { IsWritable evidence.now }
    requires place { HasPlace evidence.now place }
    ensures { result ≡ line_of_place evidence.now place }
{
    match place {
        CertificatePlace::FirstRun => 4,
        CertificatePlace::SecondRun => 5,
        CertificatePlace::TopicCount => 7,
        CertificatePlace::Topic { topic } => line_of_topic(evidence, topic),
        CertificatePlace::Document {
            topic,
            list,
            document,
        } => {
            let line = line_of_topic(evidence, topic) + 1 + u64::from(document);
            match list {
                WitnessList::Low => line,
                WitnessList::High => line + low_count(evidence, topic) + 1,
            }
        }
    }
}
