// The rows of a run that is being read.
ghost use Rattle.std.specs.Prelude.{◌≡◌, ◌+◌, ◌^◌, ◌<◌, [], if◌then◌else◌, length, Err, IfOk, OnOk};
ghost use Rattle.file_rows.specs.Grouped.{with_row_on, rows_in, place_of, row_count, name_bytes_in, stands_in};
ghost use Rattle.run_reader.specs.Reader.{row_said, IsTracked};

use crate::line::RowText;
use desk_text::Score;
use file_rows::{GroupedRows, GrowingRows, LineFault};
use std::alloc::{AllocError, Global};

/// The kept rows so far. After an error it is given up.
#[derive(Drop)]
pub struct Gathered {
    pub alloc: Global,
    pub kept: GrowingRows<Score>,
    // The topic that was looked up last, and its place: the rows of one topic mostly stand together.
    pub last_topic: Vec<u8>,
    pub last: Option<usize>,
}

impl Gathered {
    pub fn new(alloc: Global) -> Gathered
        ensures none { result.kept ≡ [] }
        ensures tracked { IsTracked result }
    {
        Gathered {
            alloc,
            kept: GrowingRows::new(alloc),
            last_topic: Vec::new(alloc),
            last: None,
        }
    }

    /// The number of a topic.
    pub fn place(&mut self, topic: &[u8]) -> Result<Option<usize>, AllocError>
        requires { IsTracked self.old }
        ensures place { IfOk result (λ place. place ≡ place_of topic.now self.old.kept) }
        ensures kept { self.new.kept ≡ self.old.kept }
        ensures tracked { OnOk result (IsTracked self.new) }
    {
        if topic != self.last_topic.as_slice() {
            self.look_up(topic)?;
        }
        Ok(self.last)
    }

    // Looks a topic up among the kept ones.
    fn look_up(&mut self, topic: &[u8]) -> Result<(), AllocError>
        ensures topic { OnOk result (self.new.last_topic.items ≡ topic.now) }
        ensures last { OnOk result (self.new.last ≡
            place_of self.new.last_topic.items self.new.kept) }
        ensures kept { self.new.kept ≡ self.old.kept }
    {
        self.last_topic.clear();
        self.last_topic.extend_from_slice(topic)?;
        self.last = self.kept.place(topic);
        Ok(())
    }

    /// How many rows a topic has.
    pub fn depth(&self, topic: &[u8], place: Option<usize>) -> usize
        requires place { place ≡ place_of topic.now self.now.kept }
        ensures { result ≡ length (rows_in topic.now self.now.kept) }
    {
        match place {
            Some(t) => self.kept.at(t).len(),
            None => 0,
        }
    }

    /// Puts a row into its topic, and answers its first fault, where it has one: a repeated document before the limit that it would pass.
    pub fn put(
        &mut self,
        place: Option<usize>,
        row: &RowText<'_>,
        room: Result<(), LineFault>,
    ) -> Result<Result<(), LineFault>, AllocError>
        requires tracked { IsTracked self.old }
        requires place { place ≡ place_of row.now.topic.now self.old.kept }
        requires rows { OnOk room (row_count self.old.kept + 1 < 2 ^ 32) }
        requires names { OnOk room
            (name_bytes_in self.old.kept + length row.now.document.now < 2 ^ 32) }
        ensures told { IfOk result (λ told. told ≡
            (if stands_in row.now.document.now (rows_in row.now.topic.now self.old.kept)
            then Err LineFault.RepeatedDocument else room)) }
        ensures added { IfOk result (λ told. OnOk told
            (self.new.kept ≡ with_row_on self.old.kept (row_said row.now))) }
        ensures tracked { IfOk result (λ told. OnOk told (IsTracked self.new)) }
    {
        let told = self.kept.put_row(self.alloc, place, row.topic, row.document, row.score, room)?;
        match place {
            Some(_) => Ok(told),
            None => {
                self.look_up(row.topic)?;
                Ok(told)
            }
        }
    }

    /// The kept rows, to which none is added.
    pub fn into_grouped(self) -> Result<GroupedRows<Score>, AllocError>
        ensures { IfOk result (λ kept. kept ≡ self.kept) }
    {
        self.kept.into_grouped(self.alloc)
    }
}
