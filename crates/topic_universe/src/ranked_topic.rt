// The documents of a topic, ranked.
ghost use Rattle.std.specs.Prelude.{◌≡◌, [], map, IfOk};
ghost use Rattle.std.specs.List.{IsDistinct};
ghost use Rattle.std.specs.Str.{bytes_eq};
ghost use Rattle.topic_universe.specs.Order.{IsTrecOrder};

use crate::ranked::names_in_order;
use crate::scored_rows::ScoredRows;
use desk_model::Memory;
use desk_text::Score;
use file_rows::ValuedRows;
use name_table::NumberedNames;
use std::alloc::Global;
use std::marker::Model;

/// The documents of a topic's rows in trec_eval's order. Its value is the rows with their scores, which it does not keep.
#[derive(Drop)]
pub struct RankedTopic {
    names: NumberedNames,
    scored: ScoredRows,
}

impl Model for RankedTopic {
    ghost use Rattle.std.specs.Prelude.{List};
    ghost use Rattle.file_rows.specs.Grouped.{Valued};
    ghost use Rattle.topic_universe.specs.Order.{IsTrecOrder};

    ghost Value = { List Valued };

    ghost view = { λ t. t.scored.rows };

    ghost invariant = { λ t. IsTrecOrder t.scored.rows t.names };
}

impl RankedTopic {
    /// No document. It takes no memory.
    pub fn new(alloc: Global) -> RankedTopic
        ensures { result ≡ [] }
    {
        RankedTopic {
            names: NumberedNames::new(alloc),
            scored: ScoredRows::new(),
        }
    }

    /// The documents of rows, whose scores are given back. The names stay where they are if the rows stand in trec_eval's order.
    pub fn of(alloc: Global, rows: ValuedRows<Score>) -> Result<RankedTopic, Memory>
        requires { IsDistinct bytes_eq (map (λ row. row.document) rows) }
        ensures { IfOk result (λ topic. topic ≡ rows) }
    {
        let scored = ScoredRows::of(&rows);
        let names = names_in_order(alloc, &rows)?;
        Ok(RankedTopic { names, scored })
    }

    /// The names of the documents, the best first.
    pub fn names(&self) -> &NumberedNames
        ensures { IsTrecOrder self.now result.now }
    {
        &self.names
    }
}
