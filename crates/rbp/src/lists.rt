// Lists of documents by the ranks of two runs.
use measure_core::RankTest;

/// The documents that the second run ranks before the first, or alone.
#[derive(Clone, Copy)]
pub struct SecondBefore;

impl RankTest for SecondBefore {
    ghost use Rattle.std.specs.Prelude.{refl};
    ghost use Rattle.measure_laws.specs.Ranks.{comes_before};

    ghost test = { λ _ first second. comes_before second first };

    #[inline]
    fn passes(&self, first: u32, second: u32) -> bool {
        (second > 0) & ((first == 0) | (second < first))
    }

    ghost absent = { λ _ _. refl };
}
