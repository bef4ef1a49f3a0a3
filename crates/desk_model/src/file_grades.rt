// The grades of a topic's documents in the judgements file.
ghost use Rattle.std.specs.Prelude.{◌≡◌, ◌<◌, All, None, length, slice_index_or};
ghost use Rattle.name_table.specs.declared.blocked_names.TheConstants.{BLOCK_NAMES};

use name_table::BLOCK_NAMES;
use std::marker::Model;

/// The grades of documents, kept in blocks of `BLOCK_NAMES` grades and what is left in one more, as their names are. `None` stands
/// where there is no grade. Documents are numbered from 0.
#[derive(Drop)]
pub struct BlockedGrades {
    whole: Vec<Vec<Option<i32>>>,
    last: Vec<Option<i32>>,
}

impl Model for BlockedGrades {
    ghost use Rattle.std.specs.Prelude.{Option, List, ℤ};
    ghost use Rattle.desk_model.specs.FileGrades.{all_grades, AreWhole};

    ghost Value = { List (Option ℤ) };

    ghost view = { λ g. all_grades g.whole.items g.last.items };

    ghost invariant = { λ g. AreWhole g.whole.items };
}

impl BlockedGrades {
    ghost use Rattle.desk_model.specs.FileGrades.{all_grades, AreWhole};

    /// The grades of whole blocks, and behind them those of the last.
    pub fn of(whole: Vec<Vec<Option<i32>>>, last: Vec<Option<i32>>) -> BlockedGrades
        requires { AreWhole whole.items }
        ensures { result ≡ all_grades whole.items last.items }
    {
        BlockedGrades { whole, last }
    }

    // The grade of document `i`.
    fn get(&self, i: usize) -> Option<i32>
        requires { i < length self.now }
        ensures { result ≡ slice_index_or self.now i None }
    {
        let block = i / BLOCK_NAMES;
        if block < self.whole.len() {
            self.whole[block][i % BLOCK_NAMES]
        } else {
            self.last[i - BLOCK_NAMES * self.whole.len()]
        }
    }
}

// How the grades are kept.
#[derive(Drop)]
pub enum KeptGrades {
    InRow(Vec<Option<i32>>),
    InBlocks(BlockedGrades),
}

// The grades of a topic's documents in the judgements file, by document.
#[derive(Drop)]
pub struct FileGrades {
    kept: KeptGrades,
}

impl Model for FileGrades {
    ghost use Rattle.std.specs.Prelude.{Option, List, ℤ};
    ghost use Rattle.desk_model.specs.KeptGrades.{kept_grades};

    ghost Value = { List (Option ℤ) };

    ghost view = { λ g. kept_grades g.kept };
}

impl FileGrades {
    // Grades in one row.
    pub(crate) fn in_row(grades: Vec<Option<i32>>) -> FileGrades
        ensures { result ≡ grades.items }
    {
        FileGrades {
            kept: KeptGrades::InRow(grades),
        }
    }

    // Grades in blocks.
    pub(crate) fn in_blocks(grades: BlockedGrades) -> FileGrades
        ensures { result ≡ grades }
    {
        FileGrades {
            kept: KeptGrades::InBlocks(grades),
        }
    }

    // The grade of document `i`.
    pub(crate) fn get(&self, i: usize) -> Option<i32>
        requires { i < length self.now }
        ensures { result ≡ slice_index_or self.now i None }
    {
        match &self.kept {
            KeptGrades::InRow(grades) => grades[i],
            KeptGrades::InBlocks(grades) => grades.get(i),
        }
    }
}
