// How long the lines of a topic are: its documents that lists of open pairs pick, and these lists. No list is kept.
ghost use Rattle.std.specs.Prelude.{◌≡◌, ℕ, ◌*◌, ◌<◌, ◌≤◌, All, length, map, slice_get, slice_index, Some, IfOk};
ghost use Rattle.std.specs.List.{sum, sum_by};
ghost use Rattle.desk_model.specs.Limits.{DOCUMENT_LIMIT, TOPIC_LIMIT};
ghost use Rattle.measure_core.specs.Lists.{times};
ghost use Rattle.measure_core.specs.Pairs.{AreAllMet};
ghost use Rattle.order_bundle.specs.Bundle.{CLAIM_LIMIT, topic_lines};
ghost use Rattle.order_bundle.specs.Lengths.{text_length};
ghost use Rattle.table_bundle.specs.Drafts.{names_where, runs_of};
ghost use Rattle.table_bundle.specs.Lengths.{all_picks, heads_length, is_counted, lists_on, picks_length_by, sizes_length, topic_lengths, topic_with, LIST_LIMIT};

use crate::pairs::NamedPair;
use crate::standing_table::{StandingPairs, TopicPairs};
use desk_model::{Mark, Memory, TopicBook};
use measure_core::{ListSizes, Measure, RunPair, TopicRankings};
use order_bundle::length::digits;
use std::alloc::Global;

// The runs of pairs.
fn runs_of_pairs(alloc: Global, pairs: &[NamedPair]) -> Result<Vec<RunPair>, Memory>
    ensures { IfOk result (λ made. made.items ≡ map runs_of pairs.now) }
{
    let mut made = Vec::with_capacity(alloc, pairs.len())?;
    for pair in pairs {
        made.push(RunPair {
            first: pair.first,
            second: pair.second,
        })?;
    }
    Ok(made)
}

// How long the lines are that begin the two lists of pairs.
fn heads_of(sizes: &[ListSizes]) -> u64
    requires { length sizes.now ≤ CLAIM_LIMIT }
    ensures bytes { result ≡ sum_by sizes_length sizes.now }
    ensures few { result ≤ 100 * length sizes.now }
{
    let mut bytes = 0;
    for both in sizes {
        bytes += digits(both.least as u64) + digits(both.most as u64) + 11;
    }
    bytes
}

// The lines of a topic with the documents that are counted.
fn documents_length(book: &TopicBook, counts: &[u32]) -> u64
    requires { length counts.now ≡ length book.now.docs }
    ensures bytes { result ≡
        text_length
        (topic_lines
        (record {
          topic = book.now.name;
          docs = names_where (is_counted counts.now) book.now.docs;
        })) }
    ensures few { result ≤ 6650000400 }
{
    let mut bytes = 0;
    let mut documents = 0;
    for doc in 0..book.doc_count() {
        if counts[doc as usize] > 0 {
            bytes += book.doc_name(doc).len() as u64 + 5;
            documents += 1;
        }
    }
    bytes + book.name().len() as u64 + digits(documents) + 8
}

// The lines of all picks, by how often each document is picked.
fn picks_length(counts: &[u32]) -> u64
    requires size { length counts.now ≤ DOCUMENT_LIMIT }
    requires few { All (λ times. times ≤ LIST_LIMIT) counts.now }
    ensures bytes { result ≡ picks_length_by counts.now }
    ensures few { result ≤ 3002880 * length counts.now }
{
    let mut bytes = 0;
    let mut place = 0;
    for times in counts {
        if *times > 0 {
            bytes += u64::from(*times) * (digits(place) + 6);
            place += 1;
        }
    }
    bytes
}

impl<'t, 's, 'a, M: Measure> TopicPairs<'t, 's, 'a, M> {
    // Counts how often the lists of the pairs pick each document, and how long the lines are that begin these lists.
    fn count(&self, alloc: Global, marks: &[Mark]) -> Result<(u64, Vec<u32>), Memory>
        requires met { AreAllMet marks.now
            (record { desk = self.now.on.now.standing.now.desk.now; topic = self.now.number }) }
        ensures bytes { let s = self.now.on.now.standing.now in
            IfOk result (λ made. made.0 ≡
            sum_by heads_length (lists_on (M.measured s.table.now.measure) self.now.on.now.pairs.now
            (topic_with s.desk.now self.now.number marks.now))) }
        ensures few { IfOk result (λ made. made.0 ≤ 100 * length self.now.on.now.pairs.now) }
        ensures size { IfOk result (λ made. length made.1.items ≡ length marks.now) }
        ensures counts { let s = self.now.on.now.standing.now in
            IfOk result (λ made. (doc : ℕ) → doc < length marks.now →
            slice_index made.1.items doc ≡
            times (all_picks (lists_on (M.measured s.table.now.measure) self.now.on.now.pairs.now
            (topic_with s.desk.now self.now.number marks.now))) doc) }
    {
        let standing = self.on.standing;
        let measure = standing.table.measure();
        let rankings = TopicRankings::new(standing.desk, self.number);
        let runs = runs_of_pairs(alloc, self.on.pairs)?;
        let mut counts = vec![in alloc; 0; marks.len()]?;
        let sizes = measure.count_pairs(alloc, &rankings, marks, &runs, &mut counts)?;
        Ok((heads_of(&sizes), counts))
    }

    // The lines of the topic with the documents that lists of the pairs pick, and these lists.
    fn length(&self, alloc: Global) -> Result<u64, Memory>
        ensures bytes { let s = self.now.on.now.standing.now in
            IfOk result (λ bytes.
            slice_get (topic_lengths (M.measured s.table.now.measure) s.desk.now s.marks.now
            self.now.on.now.pairs.now) self.now.number ≡
            Some bytes) }
        ensures few { IfOk result (λ bytes. bytes ≤ 75078653264400) }
    {
        let standing = self.on.standing;
        standing.desk.valid();
        let marks = standing.marks.topic(self.number);
        let (heads, counts) = self.count(alloc, marks)?;
        let book = standing.desk.topic(self.number);
        Ok(heads + documents_length(book, &counts) + picks_length(&counts))
    }
}

impl<'s, 'a, M: Measure> StandingPairs<'s, 'a, M> {
    /// The lines of all topics with the documents that lists of the pairs pick, and these lists.
    pub fn topics_length(&self, alloc: Global) -> Result<u64, Memory>
        ensures bytes { let s = self.now.standing.now in
            IfOk result (λ bytes. bytes ≡
            sum (topic_lengths (M.measured s.table.now.measure) s.desk.now s.marks.now
            self.now.pairs.now)) }
        ensures few { IfOk result (λ bytes. bytes ≤ 75078653264400 * TOPIC_LIMIT) }
    {
        let desk = self.standing.desk;
        desk.valid();
        let mut bytes = 0;
        for topic in 0..desk.topic_count() {
            let pairs = TopicPairs {
                on: self,
                number: topic,
            };
            bytes += pairs.length(alloc)?;
        }
        Ok(bytes)
    }
}
