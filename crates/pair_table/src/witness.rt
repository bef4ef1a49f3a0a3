// The names of the documents that the least and the most case of two runs make relevant on a topic.
ghost use Rattle.std.specs.Prelude.{◌≡◌, ◌<◌, ◌&&◌, false, length, slice_index_or, IfOk};
ghost use Rattle.desk_model.specs.Mark.{is_unjudged};
ghost use Rattle.desk_model.specs.Named.{book_at};
ghost use Rattle.pair_table.specs.Evidence.{relevant_names, least_names_of, witness_of};
ghost use Rattle.pair_table.specs.TopicUnder.{topic_of};

use crate::marked_topic::MarkedTopic;
use desk_model::{Mark, Memory, Name};
use measure_core::Measure;
use order_certificate::{NameList, TopicWitness};
use std::alloc::Global;

/// Two runs on a topic, by their numbers from 0.
#[derive(Drop)]
pub struct TopicPair<'a> {
    pub topic: MarkedTopic<'a>,
    pub first: u32,
    pub second: u32,
    pub ghost first_known: { first < length topic.desk.runs },
    pub ghost second_known: { second < length topic.desk.runs },
}

// Whether a completion makes a document with this mark relevant though it is not judged.
fn is_added(mark: Mark, relevant: bool) -> bool
    ensures { result ≡ (is_unjudged mark && relevant) }
{
    mark == Mark::Unjudged && relevant
}

impl<'a> MarkedTopic<'a> {
    // The names of the unjudged documents that a completion makes relevant.
    fn relevant(&self, alloc: Global, truth: &[bool]) -> Result<NameList, Memory>
        requires { length truth.now ≡ length (topic_of self.now).marks }
        ensures { IfOk result (λ names. names ≡
            relevant_names (book_at self.now.desk self.now.number).docs (topic_of self.now).marks
            (λ doc. slice_index_or truth.now doc false)) }
    {
        let book = self.book();
        let marks = self.marks();
        let mut names = Vec::new(alloc);
        for doc in 0..book.doc_count() {
            let place = doc as usize;
            if is_added(marks[place], truth[place]) {
                let name = Name::copy_of(alloc, book.doc_name(doc))?;
                names.push(name)?;
            }
        }
        Ok(NameList::new(names))
    }
}

impl<'a> TopicPair<'a> {
    // The names of the unjudged documents that the least case makes relevant.
    fn least_names<M: Measure>(&self, alloc: Global, measure: &M) -> Result<NameList, Memory>
        ensures { IfOk result (λ names. names ≡
            least_names_of (M.measured measure.now) self.now.topic self.now.first
            self.now.second) }
    {
        let topic = &self.topic;
        let a = topic.ranking(self.first);
        let b = topic.ranking(self.second);
        let truth = measure.least_case(alloc, a, b, topic.marks())?;
        topic.relevant(alloc, &truth)
    }

    // Those that the most case makes relevant.
    fn most_names<M: Measure>(&self, alloc: Global, measure: &M) -> Result<NameList, Memory>
        ensures { IfOk result (λ names. names ≡
            least_names_of (M.measured measure.now) self.now.topic self.now.second
            self.now.first) }
    {
        let topic = &self.topic;
        let a = topic.ranking(self.first);
        let b = topic.ranking(self.second);
        let truth = measure.most_case(alloc, a, b, topic.marks())?;
        topic.relevant(alloc, &truth)
    }

    /// The least and the most case of the two runs.
    pub fn witness<M: Measure>(&self, alloc: Global, measure: &M) -> Result<TopicWitness, Memory>
        ensures { IfOk result (λ witness. witness ≡
            witness_of (M.measured measure.now) self.now.topic self.now.first self.now.second) }
    {
        let topic = Name::copy_of(alloc, self.topic.book().name())?;
        let low = self.least_names(alloc, measure)?;
        let high = self.most_names(alloc, measure)?;
        Ok(TopicWitness { topic, low, high })
    }
}
