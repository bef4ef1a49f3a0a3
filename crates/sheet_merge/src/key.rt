// A place as a key.
ghost use Rattle.std.specs.Prelude.{◌≡◌, ◌≤◌, IfOk, length};
ghost use Rattle.sheet_merge.specs.Packed.{IsNamePair, pair_of};

use name_table::Named;
use smallvec::SmallVec;
use std::alloc::{AllocError, Global};
use std::marker::Model;

/// A topic and a document in one, as a key. Up to 32 bytes take no allocation of their own.
#[derive(Drop)]
pub struct PlaceKey {
    bytes: SmallVec<u8, 32>,
}

impl Model for PlaceKey {
    ghost use Rattle.std.specs.Prelude.{List, ℕ};
    ghost use Rattle.sheet_merge.specs.Packed.{IsNamePair};

    ghost Value = { List ℕ };

    ghost view = { λ k. k.bytes.items };

    ghost invariant = { λ k. IsNamePair k.bytes.items };
}

impl PlaceKey {
    /// The key of a topic and a document. It fails only where memory runs out.
    pub fn new(alloc: Global, topic: &[u8], document: &[u8]) -> Result<PlaceKey, AllocError>
        requires { length topic.now ≤ 255 }
        ensures key { IfOk result (λ key. key ≡ pair_of topic.now document.now) }
        ensures pair { IfOk result IsNamePair }
    {
        let mut bytes = SmallVec::from_slice(alloc, &[topic.len() as u8])?;
        bytes.extend_from_slice(topic)?;
        bytes.extend_from_slice(document)?;
        Ok(PlaceKey { bytes })
    }

    /// The topic and the document in one.
    pub fn as_bytes(&self) -> &[u8]
        ensures bytes { result.now ≡ self.now }
        ensures pair { IsNamePair self.now }
    {
        self.bytes.as_slice()
    }
}

impl Named for PlaceKey {
    ghost name = { λ key. key };

    fn bytes(&self) -> &[u8] {
        self.bytes.as_slice()
    }
}
