// The completion of a topic in which a list says what is relevant.
ghost use Rattle.std.specs.Prelude.{◌≡◌, length};
ghost use Rattle.order_certificate.specs.Evidence.{listed_truth};
ghost use Rattle.order_verifier.specs.Checks.{AreListed, unranked};

use crate::documents::Documents;
use desk_model::Mark;
use std::marker::Model;
use topic_ends::relevance::FoundNear;
use topic_ends::{Relevance, TopicMarks};

/// A topic's documents, and a list of unjudged ones: those that are judged relevant and those on the list are
/// relevant.
#[derive(Drop)]
pub struct Listed<'a> {
    marks: &'a TopicMarks<'a>,
    documents: &'a Documents<'a>,
}

impl<'a> Model for Listed<'a> {
    ghost use Rattle.order_verifier.specs.Checks.{AreListed as Fit, NamesOnTopic};

    ghost Value = { NamesOnTopic };

    ghost view = { λ l. record { docs = l.documents.now.docs; marks = l.marks.now; names = l.documents.now.names } };

    ghost invariant = { λ l. Fit (record { docs = l.documents.now.docs; marks = l.marks.now; names = l.documents.now.names }) };
}

impl<'a> Listed<'a> {
    /// A list of unjudged documents of a topic, ascending by name.
    pub fn new(marks: &'a TopicMarks<'a>, documents: &'a Documents<'a>) -> Listed<'a>
        requires { AreListed
            (record { docs = documents.now.docs; marks = marks.now; names = documents.now.names }) }
        ensures { result ≡
            record { docs = documents.now.docs; marks = marks.now; names = documents.now.names } }
    {
        Listed { marks, documents }
    }
}

impl Relevance for Listed<'_> {
    ghost universe = { λ l. length l.marks };

    ghost truth = { λ l. listed_truth (unranked l) l.names };

    fn relevant_count(&self) -> u32 {
        self.marks.all().relevant + self.documents.len() as u32
    }

    fn is_relevant(&self, doc: u32) -> bool {
        match self.marks.as_slice()[doc as usize] {
            Mark::Relevant => true,
            Mark::Other => false,
            Mark::Unjudged => self.documents.has(doc),
        }
    }

    #[inline(always)]
    fn find_relevant(&self, doc: u32, near: usize) -> FoundNear {
        match self.marks.as_slice()[doc as usize] {
            Mark::Relevant => FoundNear {
                is_found: true,
                near,
            },
            Mark::Other => FoundNear {
                is_found: false,
                near,
            },
            Mark::Unjudged => self.documents.find(doc, near),
        }
    }
}
