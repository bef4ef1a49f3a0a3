ghost use Rattle.std.specs.Prelude.{◌≡◌, ℕ, List};
ghost use Rattle.desk_model.specs.declared.types.Mark.{Mark as M};
ghost use Rattle.measure_core.specs.declared.cell.Cell.{Cell as C};
ghost use Rattle.measure_core.specs.Laws.{CellIsModest};
ghost use Rattle.measure_core.specs.Told.{AreTold};

use crate::Cell;
use topic_counts::counts::{Counts, OwnCounts};

/// A measure whose cells are told by the documents that each of two runs alone has among its first k.
pub trait OwnMeasure {
    /// The k.
    ghost depth_of: { Self → ℕ };

    /// What `own_cell` answers.
    ghost own_cell_of: { Self → List M → List ℕ → List ℕ → C };

    /// How many documents of a run it looks at.
    fn depth(&self) -> u32
        ensures { result ≡ depth_of self.now };

    /// The cell of two rankings, from the counts of the documents that each alone has among its first
    /// k, and of all documents of the topic.
    fn own_cell(&self, own: OwnCounts, all: Counts) -> Cell
        requires { (marks : List M) × (a : List ℕ) × (b : List ℕ) ×
            AreTold (depth_of self.now) marks a b own all }
        ensures cell { (marks : List M) (a b : List ℕ) →
            AreTold (depth_of self.now) marks a b own all →
            result ≡ own_cell_of self.now marks a b }
        ensures modest { CellIsModest result };
}
