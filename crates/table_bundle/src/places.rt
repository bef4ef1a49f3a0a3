// The documents that claims pick, and their places among these.
ghost use Rattle.std.specs.Prelude.{◌≡◌, ◌<◌, ◌≤◌, All, false, length, map, slice_get, slice_index, slice_index_or, Some, IfOk};
ghost use Rattle.std.specs.List.{zip};
ghost use Rattle.desk_model.specs.Limits.{DOCUMENT_LIMIT};
ghost use Rattle.order_bundle.specs.Bundle.{IsEvidenceOn};
ghost use Rattle.table_bundle.specs.Drafts.{all_documents, names_where, picked_places, picked_topics, places_where, replaced, replaced_list, replaced_picks};

use crate::picked::picked;
use desk_model::{Desk, Memory, Name, TopicBook};
use order_bundle::{PairClaim, PairClaims, PairEvidence, PairPicks, PickList, Picks, TopicNames};
use order_certificate::NameList;
use std::alloc::Global;
use std::marker::Model;

/// How many picked documents stand before each document of a topic.
#[derive(Drop)]
pub struct Places {
    places: Vec<u32>,
}

impl Model for Places {
    ghost use Rattle.std.specs.Prelude.{List, ℕ};

    ghost Value = { List ℕ };

    ghost view = { λ p. p.places.items };
}

impl Places {
    // The places by a flag for each document: whether it is picked.
    fn new(alloc: Global, flags: &[bool]) -> Result<Places, Memory>
        requires { length flags.now ≤ DOCUMENT_LIMIT }
        ensures { IfOk result (λ places. places ≡
            places_where (λ doc. slice_index_or flags.now doc false) (length flags.now)) }
    {
        let mut places = Vec::with_capacity(alloc, flags.len())?;
        let mut before = 0;
        for flag in flags {
            places.push(before)?;
            if *flag {
                before += 1;
            }
        }
        Ok(Places { places })
    }

    // The place of a document, and 0 past the last document.
    fn of(&self, doc: u32) -> u32
        ensures { result ≡ slice_index self.now doc }
    {
        let place = doc as usize;
        if place < self.places.len() {
            self.places[place]
        } else {
            0
        }
    }

    // A list with each document changed to its place.
    fn replaced(&self, alloc: Global, picks: &[u32]) -> Result<PickList, Memory>
        ensures { IfOk result (λ made. made ≡ replaced_list self.now picks.now) }
    {
        let mut made = Vec::with_capacity(alloc, picks.len())?;
        for doc in picks {
            made.push(self.of(*doc))?;
        }
        Ok(PickList::new(made))
    }
}

// The lists of each topic with each document changed to its place.
fn replaced_lists(alloc: Global, picks: &[Picks], places: &[Places]) -> Result<PairPicks, Memory>
    ensures { IfOk result (λ made. made ≡ map replaced_picks (zip picks.now places.now)) }
{
    let topics = picks.len().min(places.len());
    let mut made = Vec::with_capacity(alloc, topics)?;
    for topic in 0..topics {
        let low = places[topic].replaced(alloc, picks[topic].low.as_slice())?;
        let high = places[topic].replaced(alloc, picks[topic].high.as_slice())?;
        made.push(Picks { low, high })?;
    }
    Ok(PairPicks::new(made))
}

// A claim with each document changed to its place.
fn replaced_claim(alloc: Global, claim: PairClaim, places: &[Places]) -> Result<PairClaim, Memory>
    ensures { IfOk result (λ made. made ≡ replaced places.now claim) }
{
    let PairClaim {
        first,
        second,
        evidence,
    } = claim;
    let evidence = match evidence {
        PairEvidence::Above(bounds) => PairEvidence::Above(bounds),
        PairEvidence::Equal(bounds) => PairEvidence::Equal(bounds),
        PairEvidence::Open(picks) => {
            PairEvidence::Open(replaced_lists(alloc, picks.as_slice(), places)?)
        }
    };
    Ok(PairClaim {
        first,
        second,
        evidence,
    })
}

/// Claims with each document changed to its place, each made as the one before it is given up.
pub fn replaced_claims(
    alloc: Global,
    claims: Vec<PairClaim>,
    places: &[Places],
) -> Result<PairClaims, Memory>
    ensures { IfOk result (λ made. made ≡ map (replaced places.now) claims.items) }
{
    let mut made = Vec::with_capacity(alloc, claims.len())?;
    for claim in claims {
        made.push(replaced_claim(alloc, claim, places)?)?;
    }
    Ok(PairClaims::new(made))
}

// The names of the flagged documents of a topic.
fn flagged_names(alloc: Global, book: &TopicBook, flags: &[bool]) -> Result<NameList, Memory>
    requires { length flags.now ≡ length book.now.docs }
    ensures { IfOk result (λ names. names ≡
        names_where (λ doc. slice_index_or flags.now doc false) book.now.docs) }
{
    let mut names = Vec::new(alloc);
    for doc in 0..book.doc_count() {
        if flags[doc as usize] {
            let name = Name::copy_of(alloc, book.doc_name(doc))?;
            names.push(name)?;
        }
    }
    Ok(NameList::new(names))
}

// A topic with the documents that claims pick, and the places of all its documents among these.
fn picked_topic(
    alloc: Global,
    desk: &Desk,
    claims: &[PairClaim],
    topic: u32,
) -> Result<(TopicNames, Places), Memory>
    requires topic { topic < length desk.now.topics }
    requires claims { All (λ claim. IsEvidenceOn (all_documents desk.now) claim.evidence)
        claims.now }
    ensures names { IfOk result (λ made.
        slice_get (picked_topics claims.now (all_documents desk.now)) topic ≡ Some made.0) }
    ensures places { IfOk result (λ made.
        slice_get (picked_places claims.now (all_documents desk.now)) topic ≡ Some made.1) }
{
    let book = desk.topic(topic);
    let flags = picked(alloc, claims, topic, book.doc_count())?;
    let names = TopicNames {
        topic: Name::copy_of(alloc, book.name())?,
        docs: flagged_names(alloc, book, &flags)?,
    };
    let places = Places::new(alloc, &flags)?;
    Ok((names, places))
}

/// Each topic with the documents that claims pick, and the places of all its documents among these.
pub fn picked_documents(
    alloc: Global,
    desk: &Desk,
    claims: &[PairClaim],
) -> Result<(Vec<TopicNames>, Vec<Places>), Memory>
    requires { All (λ claim. IsEvidenceOn (all_documents desk.now) claim.evidence) claims.now }
    ensures topics { IfOk result (λ made. made.0.items ≡
        picked_topics claims.now (all_documents desk.now)) }
    ensures places { IfOk result (λ made. made.1.items ≡
        picked_places claims.now (all_documents desk.now)) }
{
    let mut topics = Vec::new(alloc);
    let mut places = Vec::new(alloc);
    for topic in 0..desk.topic_count() {
        let (names, before) = picked_topic(alloc, desk, claims, topic)?;
        topics.push(names)?;
        places.push(before)?;
    }
    Ok((topics, places))
}
