use desk_model::Name;

/// A judgement of a document, live or undone.
#[derive(Drop)]
pub struct Change {
    /// The caller who judged.
    pub who: Name,
    /// The number of the topic in the desk, from 0.
    pub topic: u32,
    /// The number of the document in the topic's universe, from 0.
    pub doc: u32,
    /// The grade as it was given, -1,000 to 1,000.
    pub grade: i32,
    /// Whether it is live, else undone.
    pub live: bool,
}
