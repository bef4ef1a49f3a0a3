//! Laws of files of sheets, each the contract of a function that does nothing.
ghost use Rattle.std.specs.Prelude.{◌≡◌, ℕ, List, [], Some, Ok, Err};
ghost use Rattle.desk_outside.specs.Outside.{Files};
ghost use Rattle.sheet_merge.specs.Sheet.{SheetRow};
ghost use Rattle.sheet_merge.specs.Merging.{MergesTo};
ghost use Rattle.sheet_merge.specs.declared.limits.TheConstants.{ENTRY_LIMIT};
ghost use Rattle.desk_files.specs.Files.{Refused, TooManyEntries};
ghost use Rattle.desk_files.specs.Sheets.{IsRefusedAt, SaySheets, merge_of};

/// Merging the sheets of files, each before the next is opened, is merging what they say: it comes to rows where all files
/// say sheets and these merge to the rows, and to too many entries at a path where the files up to it say sheets whose merge
/// is refused.
pub fn merge_of_files_is_of_sheets()
    ensures merge { (files : Files) (paths : List (List ℕ)) (rows : List SheetRow) →
        merge_of files [] paths ≡ Ok rows →
        (sheets : List (List SheetRow)) × SaySheets files paths sheets ×
        MergesTo ENTRY_LIMIT [] sheets (Some rows) }
    ensures refusal { (files : Files) (paths : List (List ℕ)) (path : List ℕ) →
        merge_of files [] paths ≡ Err (Refused (TooManyEntries path)) →
        IsRefusedAt files [] paths path }
{}
