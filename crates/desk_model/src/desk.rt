ghost use Rattle.std.specs.Prelude.{◌≡◌, ◌<◌, length, map, slice_get, Some, IfSome, position};
ghost use Rattle.desk_model.specs.Name.{name_cmp, is_same_name, number_of};
ghost use Rattle.desk_model.specs.Book.{Book};

use crate::book::TopicBook;
use crate::name::Name;
use crate::ranking::Ranking;
use std::cmp::Ordering;
use std::marker::Model;

/// The topics with their universes, and what each run retrieved on each topic.
///
/// Topics are numbered from 0 in ascending order of their names, runs from 0 in the order in which they were given.
#[derive(Drop)]
pub struct Desk {
    topics: Vec<TopicBook>,
    runs: Vec<Name>,
    // The rankings of each run, one for each topic.
    rankings: Vec<Vec<Ranking>>,
}

impl Model for Desk {
    ghost use Rattle.std.specs.Prelude.{map};
    ghost use Rattle.desk_model.specs.Desk.{Desk as View, IsDesk};

    ghost Value = { View };

    ghost view = { λ d. record { topics = d.topics.items; runs = d.runs.items; rankings = map (λ each. each.items) d.rankings.items } };

    ghost invariant = { λ d. IsDesk (record { topics = d.topics.items; runs = d.runs.items; rankings = map (λ each. each.items) d.rankings.items }) };
}

impl Desk {
    ghost use Rattle.desk_model.specs.Book.{IsBook};
    ghost use Rattle.desk_model.specs.Ranking.{IsRanking};
    ghost use Rattle.desk_model.specs.Desk.{IsDesk, ranking_of};

    /// A desk of topics that ascend by name, runs of different names, and the rankings of each run, one for each
    /// topic over that topic's universe.
    pub fn new(topics: Vec<TopicBook>, runs: Vec<Name>, rankings: Vec<Vec<Ranking>>) -> Desk
        requires { IsDesk
            (record {
              topics = topics.items;
              runs = runs.items;
              rankings = map (λ each. each.items)
                  rankings.items;
            }) }
        ensures { result ≡
            record {
              topics = topics.items;
              runs = runs.items;
              rankings = map (λ each. each.items)
                  rankings.items;
            } }
    {
        Desk {
            topics,
            runs,
            rankings,
        }
    }

    /// That the desk is valid, as each is by its type. It costs nothing, and is called where a proof needs the fact.
    pub fn valid(&self)
        ensures { IsDesk self.now }
    {
        let _ = &self.runs;
    }

    /// The number of topics, at least one.
    pub fn topic_count(&self) -> u32
        ensures count { result ≡ length self.now.topics }
        ensures desk { IsDesk self.now }
    {
        self.topics.len() as u32
    }

    /// The number of runs, at least one.
    pub fn run_count(&self) -> u32
        ensures count { result ≡ length self.now.runs }
        ensures desk { IsDesk self.now }
    {
        self.runs.len() as u32
    }

    /// A topic by its number.
    pub fn topic(&self, t: u32) -> &TopicBook
        requires { t < length self.now.topics }
        ensures { slice_get self.now.topics t ≡ Some result.now }
    {
        &self.topics[t as usize]
    }

    /// The name of a run by its number.
    pub fn run_name(&self, r: u32) -> &[u8]
        requires { r < length self.now.runs }
        ensures { slice_get self.now.runs r ≡ Some result.now }
    {
        self.runs[r as usize].as_bytes()
    }

    /// The ranking of a run on a topic.
    pub fn ranking(&self, r: u32, t: u32) -> &Ranking
        requires run { r < length self.now.runs }
        requires topic { t < length self.now.topics }
        ensures ranking { result.now ≡ ranking_of self.now r t }
        ensures over { IfSome (slice_get self.now.topics t) (λ book.
            IsRanking (length book.docs) result.now) }
    {
        &self.rankings[r as usize][t as usize]
    }

    /// The number of the topic with this name, and `None` exactly where no topic has it.
    pub fn find_topic(&self, name: &[u8]) -> Option<u32>
        ensures { result ≡ number_of (map (λ (book : Book). book.name) self.now.topics) name.now }
    {
        let topics: &[TopicBook] = &self.topics;
        match topics.binary_search_by(|each| compare_topic(each, name)) {
            Ok(at) => Some(at as u32),
            Err(_) => None,
        }
    }

    /// The number of the run with this name, and `None` exactly where no run has it.
    pub fn find_run(&self, name: &[u8]) -> Option<u32>
        ensures { result ≡ number_of self.now.runs name.now }
    {
        match place_of(&self.runs, name) {
            Some(place) => Some(place as u32),
            None => None,
        }
    }
}

// The first place of a name.
fn place_of(names: &[Name], name: &[u8]) -> Option<usize>
    ensures place { result ≡ position (λ each. is_same_name each name.now) names.now }
    ensures within { IfSome result (λ place. place < length names.now) }
{
    names.iter().position(|each| each.is_same(name))
}

fn compare_topic(book: &TopicBook, name: &[u8]) -> Ordering
    ensures { result ≡ name_cmp book.now.name name.now }
{
    book.name().cmp(name)
}
