//! A desk's numbers of the documents of a bundle.
ghost use Rattle.std.specs.Prelude.{◌≡◌, IfOk};
ghost use Rattle.order_verifier.specs.Rows.{numbers_of};
ghost use Rattle.bundle_verifier.specs.Rows.{AreNumbersOf};

use crate::rows::item_at;
use desk_model::{Desk, Memory, Name, TopicBook};
use order_bundle::TopicNames;
use std::alloc::Global;
use std::marker::Model;

/// The number on a desk's topic of each document line of a bundle's topic, and none where the topic has no such
/// document.
#[derive(Drop)]
pub struct DocumentNumbers {
    numbers: Vec<Option<u32>>,
}

impl Model for DocumentNumbers {
    ghost use Rattle.std.specs.Prelude.{List, Option, ℕ};

    ghost Value = { List (Option ℕ) };

    ghost view = { λ n. n.numbers.items };
}

impl DocumentNumbers {
    /// The numbers of some names on a topic. The only error is out of memory.
    pub fn new(alloc: Global, book: &TopicBook, names: &[Name]) -> Result<DocumentNumbers, Memory>
        ensures { IfOk result (λ numbers. numbers ≡ numbers_of book.now.docs names.now) }
    {
        let mut numbers = Vec::new(alloc);
        for name in names {
            numbers.push(book.find(name.as_bytes()))?;
        }
        Ok(DocumentNumbers { numbers })
    }

    /// The numbers, that of the first document line at place 0.
    pub fn as_slice(&self) -> &[Option<u32>]
        ensures { result.now ≡ self.now }
    {
        self.numbers.as_slice()
    }
}

/// The numbers of the documents of a bundle's topics, each on the desk's topic at its place, as long as there is one.
pub fn numbers_on(
    alloc: Global,
    desk: &Desk,
    topics: &[TopicNames],
) -> Result<Vec<DocumentNumbers>, Memory>
    ensures { IfOk result (λ numbers. AreNumbersOf desk.now topics.now numbers.items) }
{
    let count = topics.len().min(desk.topic_count() as usize) as u32;
    let mut numbers = Vec::new(alloc);
    for topic in 0..count {
        let names = item_at(topics, topic);
        let book = desk.topic(topic);
        let next = DocumentNumbers::new(alloc, book, names.docs.as_slice())?;
        numbers.push(next)?;
    }
    Ok(numbers)
}
