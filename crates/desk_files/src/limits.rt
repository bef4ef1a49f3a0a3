// The limit of a file, and the limits of the crates below in numbers.
ghost use Rattle.std.specs.Prelude.{◌≡◌, pos, negsuc};
ghost use Rattle.desk_text.specs.declared.line.TheConstants.{LONGEST_LINE};
ghost use Rattle.desk_model.specs.declared.limits.TheConstants.{MOST_RUNS};
ghost use Rattle.desk_model.specs.declared.name.TheConstants.Name.{LONGEST};
ghost use Rattle.qrels_reader.specs.declared.limits.TheConstants.{MOST_TOPICS, MOST_QRELS_ROWS, LEAST_GRADE, GREATEST_GRADE};
ghost use Rattle.file_rows.specs.declared.limits.TheConstants.{MOST_NAME_BYTES};
ghost use Rattle.run_reader.specs.declared.limits.TheConstants.{MOST_RANKS, MOST_RUN_ROWS};
ghost use Rattle.topics_pool.specs.declared.limits.TheConstants.{MOST_CELLS};
ghost use Rattle.sheet_merge.specs.declared.limits.TheConstants.{ENTRY_LIMIT, GREATEST_STAMP};
ghost use Rattle.desk_files.specs.declared.limits.TheConstants.{LONGEST_FILE};

/// The most bytes of a file.
pub const LONGEST_FILE: usize = 1_073_741_824;

/// The definitions speak of the limits by their names; they are these numbers.
pub fn limits_in_numbers()
    ensures file { LONGEST_FILE ≡ 1073741824 }
    ensures line { LONGEST_LINE ≡ 4096 }
    ensures name { LONGEST ≡ 255 }
    ensures topics { MOST_TOPICS ≡ 10000 }
    ensures qrels_rows { MOST_QRELS_ROWS ≡ 5000000 }
    ensures name_bytes { MOST_NAME_BYTES ≡ 268435456 }
    ensures least_grade { LEAST_GRADE ≡ negsuc 999 }
    ensures greatest_grade { GREATEST_GRADE ≡ pos 1000 }
    ensures ranks { MOST_RANKS ≡ 10000 }
    ensures run_rows { MOST_RUN_ROWS ≡ 20000000 }
    ensures cells { MOST_CELLS ≡ 10000000 }
    ensures runs { MOST_RUNS ≡ 256 }
    ensures entries { ENTRY_LIMIT ≡ 1000000 }
    ensures stamps { GREATEST_STAMP ≡ 1000000000000000000 }
{}
