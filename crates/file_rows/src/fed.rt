// Bytes that proofs alone read.
ghost use Rattle.std.specs.Prelude.{◌≡◌, ℕ, List, [], ◌++◌};
ghost use Rattle.std.specs.Borrow.{ftrue};

use std::marker::Model;

/// The bytes that a reader was fed, which clauses name as `bytes`. It takes no memory, and its methods do nothing at run time.
#[derive(Drop)]
pub struct Fed {
    pub ghost bytes: { List ℕ },
}

impl Model for Fed {
    ghost also_owns = { λ _. ftrue };
}

impl Fed {
    /// No byte.
    pub fn new() -> Fed
        ensures { result.bytes ≡ [] }
    {
        Fed {}
    }

    /// The bytes and those of one more piece.
    pub fn note(&mut self, _piece: &[u8])
        ensures { self.new.bytes ≡ self.old.bytes ++ _piece.now }
    {}
}
