//! Laws of maps of sheets and of their merge, each the contract of a function that does nothing.
ghost use Rattle.std.specs.Prelude.{◌≡◌, ◌↔◌, ℕ, ◌<◌, ◌≤◌, List, [], ◌∷◌, ◌++◌, length, Option, None, Some, Ok};
ghost use Rattle.sheet_merge.specs.Sheet.{SheetEntry, SheetPlace, SheetRow, IsMap, IsMapOf, greater, greater_of, greatest_on, map_of, merged};
ghost use Rattle.sheet_merge.specs.Sheet.{IsSheet};
ghost use Rattle.sheet_merge.specs.Lines.{sheet_of};
ghost use Rattle.sheet_merge.specs.Text.{sheet_text};
ghost use Rattle.sheet_merge.specs.Merging.{IsMergeOf, IsMergeOfAll, MergesTo, HaveSame};

/// Of two entries, the greater does not depend on their order, nor that of three on how they are paired, and that of an
/// entry and itself is the entry.
pub fn greater_is_one()
    ensures order { (x y : SheetEntry) → greater x y ≡ greater y x }
    ensures pairs { (x y z : SheetEntry) → greater (greater x y) z ≡ greater x (greater y z) }
    ensures itself { (x : SheetEntry) → greater x x ≡ x }
{}

/// Two maps with the same entry at each place are one.
pub fn map_is_one()
    ensures { (a b : List SheetRow) → IsMap a → IsMap b →
        ((place : SheetPlace) → greatest_on place a ≡ greatest_on place b) → a ≡ b }
{}

/// The map of lines does not depend on their order, nor on lines that come again.
pub fn order_of_lines_is_free()
    ensures { (lines others a b : List SheetRow) → HaveSame lines others → IsMapOf lines a →
        IsMapOf others b → a ≡ b }
{}

/// Lines have a map, which `map_of` computes; so have two maps a merge, which `merged` computes, and the merge is the map
/// of the lines of both together.
pub fn maps_are_computed()
    ensures map { (lines : List SheetRow) → IsMapOf lines (map_of lines) }
    ensures merge { (a b : List SheetRow) → IsMap a → IsMergeOf a b (merged a b) }
    ensures together { (a b rows : List SheetRow) → IsMergeOf a b rows → IsMapOf (a ++ b) rows }
{}

/// The merge of a list of sheets is one in every order and with every repetition.
pub fn order_of_sheets_is_free()
    ensures { (sheets others : List (List SheetRow)) (a b : List SheetRow) →
        HaveSame sheets others →
        IsMergeOfAll sheets a → IsMergeOfAll others b → a ≡ b }
{}

/// Merging sheets one after the other into the empty map comes to the merge of all, where it comes to a map; and where it
/// is refused, the merge of all has more places than there may be.
pub fn merging_is_of_all()
    ensures merge { (limit : ℕ) (sheets : List (List SheetRow)) (rows : List SheetRow) →
        MergesTo limit [] sheets (Some rows) → IsMergeOfAll sheets rows × (length rows ≤ limit) }
    ensures refusal { (limit : ℕ) (sheets : List (List SheetRow)) (whole : List SheetRow) →
        MergesTo limit [] sheets None → IsMergeOfAll sheets whole → limit < length whole }
{}

/// Merging sheets one after the other comes to the same in every order and with every repetition: to the same map, or it is
/// refused in one exactly where it is refused in every one.
pub fn merging_is_one()
    ensures { (limit : ℕ) (sheets others : List (List SheetRow))
        (result other : Option (List SheetRow)) → HaveSame sheets others →
        MergesTo limit [] sheets result → MergesTo limit [] others other → result ≡ other }
{}

/// The text of a sheet, read again, is the sheet.
pub fn text_says_the_sheet()
    ensures { (rows : List SheetRow) → IsSheet rows → sheet_of (sheet_text rows) ≡ Ok rows }
{}
