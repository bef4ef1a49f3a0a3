// The names of a topic's documents.
ghost use Rattle.std.specs.Prelude.{◌≡◌, ◌<◌, ◌≤◌, length, slice_get, Some};
ghost use Rattle.desk_model.specs.Limits.{DOCUMENT_LIMIT};
ghost use Rattle.desk_model.specs.Name.{number_of, AreAscending};

use crate::name::Name;
use name_table::BlockedNames;
use std::cmp::Ordering;
use std::marker::Model;

// How the names are kept.
#[derive(Drop)]
pub enum KeptNames {
    // Each in room of its own.
    Each(Vec<Name>),
    // One behind the other in blocks.
    InBlocks(BlockedNames),
}

// The names of a topic's documents, numbered from 0.
#[derive(Drop)]
pub struct DocumentNames {
    kept: KeptNames,
}

impl Model for DocumentNames {
    ghost use Rattle.std.specs.Prelude.{List, ℕ};
    ghost use Rattle.desk_model.specs.KeptNames.{kept_names};

    ghost Value = { List (List ℕ) };

    ghost view = { λ d. kept_names d.kept };
}

impl DocumentNames {
    // Names that each have room of their own.
    pub(crate) fn each(names: Vec<Name>) -> DocumentNames
        ensures { result ≡ names.items }
    {
        DocumentNames {
            kept: KeptNames::Each(names),
        }
    }

    // Names in blocks.
    pub(crate) fn in_blocks(names: BlockedNames) -> DocumentNames
        ensures { result ≡ names }
    {
        DocumentNames {
            kept: KeptNames::InBlocks(names),
        }
    }

    // How many names there are.
    pub(crate) fn len(&self) -> usize
        ensures { result ≡ length self.now }
    {
        match &self.kept {
            KeptNames::Each(names) => names.len(),
            KeptNames::InBlocks(names) => names.len(),
        }
    }

    // A name by its number.
    pub(crate) fn get(&self, i: usize) -> &[u8]
        requires { i < length self.now }
        ensures { slice_get self.now i ≡ Some result.now }
    {
        match &self.kept {
            KeptNames::Each(names) => names[i].as_bytes(),
            KeptNames::InBlocks(names) => names.get(i),
        }
    }

    // The number of a name, and `None` exactly where it is not there.
    pub(crate) fn find(&self, name: &[u8]) -> Option<u32>
        requires ascending { AreAscending self.now }
        requires few { length self.now ≤ DOCUMENT_LIMIT }
        ensures { result ≡ number_of self.now name.now }
    {
        let mut low = 0;
        let mut high = self.len();
        while low < high {
            let middle = low + (high - low) / 2;
            match self.get(middle).cmp(name) {
                Ordering::Less => low = middle + 1,
                Ordering::Equal => return Some(middle as u32),
                Ordering::Greater => high = middle,
            }
        }
        None
    }
}
