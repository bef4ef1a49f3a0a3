// Laws, each the contract of a function that does nothing.
ghost use Rattle.std.specs.Prelude.{◌≡◌, ℕ, ◌+◌, List, Option, Ok};
ghost use Rattle.file_rows.specs.Grouped.{TopicRows, row_count};
ghost use Rattle.run_reader.specs.Run.{Run, run_of};
ghost use Rattle.run_reader.specs.declared.used.Used.{Used};
ghost use Rattle.desk_model.specs.Desk.{Desk};
ghost use Rattle.topics_pool.specs.Rows.{IsDeskOf};

/// The rows that runs used are those that earlier runs used and a run's own, so runs that are read one after the other, each
/// after what the one before it used, have together as many rows as the last of them tells.
pub fn rows_add_up()
    ensures { (name : Option (List ℕ)) (qrels : List TopicRows) (used : Used) (bytes : List ℕ)
        (run : Run) →
        run_of name qrels used bytes ≡ Ok run → run.used.rows ≡ used.rows + row_count run.topics }
{}

/// The rows fix the desk: two desks of the same rows are one.
pub fn desk_is_one()
    ensures { (qrels : List TopicRows) (runs : List Run) (d e : Desk) → IsDeskOf qrels runs d →
        IsDeskOf qrels runs e → d ≡ e }
{}
