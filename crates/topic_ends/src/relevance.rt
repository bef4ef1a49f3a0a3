ghost use Rattle.std.specs.Prelude.{◌≡◌, ℕ, ◌<◌, Bool};
ghost use Rattle.desk_model.specs.Score.{true_count};

/// Whether what is looked for is found, and a place near which the next one may stand.
#[derive(Clone, Copy)]
pub struct FoundNear {
    pub is_found: bool,
    pub near: usize,
}

/// Which documents of a topic are relevant in one completion. Documents are numbered from 0.
pub trait Relevance {
    /// How many documents the topic has.
    ghost universe: { Self → ℕ };

    /// Whether each of them is relevant.
    ghost truth: { Self → ℕ → Bool };

    /// How many of them are relevant.
    fn relevant_count(&self) -> u32
        ensures { result ≡ true_count (truth self.now) (universe self.now) };

    /// Whether a document is relevant.
    fn is_relevant(&self, doc: u32) -> bool
        requires { doc < universe self.now }
        ensures { result ≡ truth self.now doc };

    /// The same, looked for first at a place, which changes nothing but how soon it is found. For documents that
    /// ascend, the place that the one before answers is near.
    fn find_relevant(&self, doc: u32, near: usize) -> FoundNear
        requires { doc < universe self.now }
        ensures { result.is_found ≡ truth self.now doc }
    {
        FoundNear {
            is_found: self.is_relevant(doc),
            near,
        }
    }
}
