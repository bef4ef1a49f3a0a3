//! Marks with the counts of their documents, where these were counted before.
ghost use Rattle.std.specs.Prelude.{◌≡◌, ◌<◌, ◌≤◌, length, slice_get, Some};
ghost use Rattle.desk_model.specs.Limits.{DOCUMENT_LIMIT};
ghost use Rattle.topic_ends.specs.Counted.{AreAllCounts, AreCountsOf};

use crate::counts::{RelevantCounts, all_documents};
use desk_model::{Mark, Rows};
use std::marker::Model;

/// The marks of a topic's documents.
#[derive(Drop)]
pub struct TopicMarks<'a> {
    marks: &'a [Mark],
    counts: Option<RelevantCounts>,
}

impl<'a> Model for TopicMarks<'a> {
    ghost use Rattle.std.specs.Prelude.{List};
    ghost use Rattle.desk_model.specs.declared.types.Mark.{Mark};
    ghost use Rattle.topic_ends.specs.Counted.{AreCounted};

    ghost Value = { List Mark };

    ghost view = { λ m. m.marks.now };

    ghost invariant = { λ m. AreCounted m.marks.now m.counts };
}

impl<'a> TopicMarks<'a> {
    /// Marks whose documents are counted anew each time.
    pub fn anew(marks: &'a [Mark]) -> TopicMarks<'a>
        ensures { result ≡ marks.now }
    {
        TopicMarks {
            marks,
            counts: None,
        }
    }

    /// Marks whose documents were counted before.
    pub fn counted(marks: &'a [Mark], counts: RelevantCounts) -> TopicMarks<'a>
        requires { AreAllCounts marks.now counts }
        ensures { result ≡ marks.now }
    {
        TopicMarks {
            marks,
            counts: Some(counts),
        }
    }

    /// The marks, that of document 0 first.
    pub fn as_slice(&self) -> &[Mark]
        ensures { result.now ≡ self.now }
    {
        self.marks
    }

    /// The counts of all documents.
    pub fn all(&self) -> RelevantCounts
        requires { length self.now ≤ DOCUMENT_LIMIT }
        ensures { AreAllCounts self.now result }
    {
        match self.counts {
            Some(counts) => counts,
            None => all_documents(self.marks),
        }
    }
}

/// The marks of all topics.
#[derive(Drop)]
pub struct DeskMarks<'a> {
    marks: &'a Rows,
    counts: &'a [RelevantCounts],
}

impl<'a> Model for DeskMarks<'a> {
    ghost use Rattle.std.specs.Prelude.{List};
    ghost use Rattle.desk_model.specs.declared.types.Mark.{Mark};
    ghost use Rattle.topic_ends.specs.Counted.{AreCountsOf as CountsOf};

    ghost Value = { List (List Mark) };

    ghost view = { λ m. m.marks.now };

    ghost invariant = { λ m. CountsOf m.marks.now m.counts.now };
}

impl<'a> DeskMarks<'a> {
    /// Marks whose documents are counted anew each time.
    pub fn anew(marks: &'a Rows) -> DeskMarks<'a>
        ensures { result ≡ marks.now }
    {
        DeskMarks { marks, counts: &[] }
    }

    /// Marks of which the documents of the first topics were counted before.
    pub fn counted(marks: &'a Rows, counts: &'a [RelevantCounts]) -> DeskMarks<'a>
        requires { AreCountsOf marks.now counts.now }
        ensures { result ≡ marks.now }
    {
        DeskMarks { marks, counts }
    }

    /// The marks of a topic's documents.
    pub fn topic(&self, topic: u32) -> TopicMarks<'a>
        requires { topic < length self.now }
        ensures { slice_get self.now topic ≡ Some result }
    {
        let marks = self.marks.topic(topic);
        match self.counts.get(topic as usize) {
            Some(counts) => TopicMarks::counted(marks, *counts),
            None => TopicMarks::anew(marks),
        }
    }

    /// The same, without their counts.
    pub fn of_topic(&self, topic: u32) -> &[Mark]
        requires { topic < length self.now }
        ensures { slice_get self.now topic ≡ Some result.now }
    {
        self.marks.topic(topic)
    }
}
