// A desk of one topic with one document.
ghost use Rattle.std.specs.Prelude.{◌≡◌, [], ◌∷◌, None, IfOk, true};
ghost use Rattle.desk_model.specs.Name.{is_name};

use desk_model::{Desk, Name, Ranking, TopicBook};
use std::alloc::Global;
use std::test::Fail;

fn one_topic(alloc: Global, name: Name, doc: Name) -> Result<Vec<TopicBook>, Fail>
    requires name { is_name name ≡ true }
    requires doc { is_name doc ≡ true }
    ensures { IfOk result (λ topics.
        topics.items ≡ record { name = name; docs = doc ∷ []; grades = None ∷ [] } ∷ []) }
{
    let docs = Vec::from_array(alloc, [doc])?;
    let grades = Vec::from_array(alloc, [None])?;
    let topics = Vec::from_array(alloc, [TopicBook::new(name, docs, grades)])?;
    Ok(topics)
}

// The topic 401 with the document d3, which the file does not list, and the run A that ranks nothing.
pub fn one_document(alloc: Global) -> Result<Desk, Fail> {
    let name = Name::new(alloc, b"401")?;
    let doc = Name::new(alloc, b"d3")?;
    let run = Name::new(alloc, b"A")?;
    let topics = one_topic(alloc, name, doc)?;
    let runs = Vec::from_array(alloc, [run])?;
    let ranking = Ranking::new(alloc, Vec::new(alloc), 1)?;
    let rankings = Vec::from_array(alloc, [ranking])?;
    let all = Vec::from_array(alloc, [rankings])?;
    Ok(Desk::new(topics, runs, all))
}
