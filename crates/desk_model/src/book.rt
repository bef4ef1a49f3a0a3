ghost use Rattle.std.specs.Prelude.{◌≡◌, ◌<◌, ◌≤◌, length, map, slice_get, Some, IfOk};
ghost use Rattle.desk_model.specs.Name.{number_of};

use crate::document_names::DocumentNames;
use crate::file_grades::{BlockedGrades, FileGrades};
use crate::name::Name;
use name_table::BlockedNames;
use std::alloc::{AllocError, Global};
use std::marker::Model;

/// A topic: the names of its documents, its universe, and what the judgements file says of each.
#[derive(Drop)]
pub struct TopicBook {
    name: Name,
    docs: DocumentNames,
    grades: FileGrades,
}

impl Model for TopicBook {
    ghost use Rattle.desk_model.specs.Book.{Book, IsBook};

    ghost Value = { Book };

    ghost view = { λ b. record { name = b.name; docs = b.docs; grades = b.grades } };

    ghost invariant = { λ b. IsBook (record { name = b.name; docs = b.docs; grades = b.grades }) };
}

impl TopicBook {
    ghost use Rattle.desk_model.specs.Book.{IsBook, file_grade_of};

    /// A topic with these documents, ascending by name, and the grade of each in the judgements file: `None` where
    /// the file does not list it. Documents are numbered from 0 in that order.
    pub fn new(name: Name, docs: Vec<Name>, grades: Vec<Option<i32>>) -> TopicBook
        requires { IsBook (record { name = name; docs = docs.items; grades = grades.items }) }
        ensures { result ≡ record { name = name; docs = docs.items; grades = grades.items } }
    {
        TopicBook {
            name,
            docs: DocumentNames::each(docs),
            grades: FileGrades::in_row(grades),
        }
    }

    /// The same with the names of the documents and their grades in blocks, which take less room.
    pub fn of_blocks(name: Name, docs: BlockedNames, grades: BlockedGrades) -> TopicBook
        requires { IsBook (record { name = name; docs = docs; grades = grades }) }
        ensures { result ≡ record { name = name; docs = docs; grades = grades } }
    {
        TopicBook {
            name,
            docs: DocumentNames::in_blocks(docs),
            grades: FileGrades::in_blocks(grades),
        }
    }

    /// The topic's name.
    pub fn name(&self) -> &[u8]
        ensures name { result.now ≡ self.now.name }
        ensures book { IsBook self.now }
    {
        let _ = &self.docs;
        self.name.as_bytes()
    }

    /// The number of documents in the universe.
    pub fn doc_count(&self) -> u32
        ensures count { result ≡ length self.now.docs }
        ensures book { IsBook self.now }
    {
        self.docs.len() as u32
    }

    /// The name of a document by its number.
    pub fn doc_name(&self, doc: u32) -> &[u8]
        requires { doc < length self.now.docs }
        ensures { slice_get self.now.docs doc ≡ Some result.now }
    {
        self.docs.get(doc as usize)
    }

    /// The grade of a document in the judgements file, and `None` exactly where the file does not list it.
    pub fn file_grade(&self, doc: u32) -> Option<i32>
        requires { doc < length self.now.docs }
        ensures { result ≡ file_grade_of self.now doc }
    {
        self.grades.get(doc as usize)
    }

    /// A copy of the grades of all documents in the judgements file, by document. It fails only where memory runs out.
    pub fn grades(&self, alloc: Global) -> Result<Vec<Option<i32>>, AllocError>
        ensures { IfOk result (λ grades. grades.items ≡ self.now.grades) }
    {
        let mut grades = Vec::with_capacity(alloc, self.docs.len())?;
        for doc in 0..self.doc_count() {
            grades.push(self.file_grade(doc))?;
        }
        Ok(grades)
    }

    /// The number of the document with this name, and `None` exactly where no document has it.
    pub fn find(&self, name: &[u8]) -> Option<u32>
        ensures { result ≡ number_of self.now.docs name.now }
    {
        self.docs.find(name)
    }
}
