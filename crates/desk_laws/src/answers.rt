//! What follows for every call that ends as its words mean, each law the contract of a function that does nothing.
ghost use Rattle.desk_laws.specs.Answered.{TextsEndTheirLines, AnswersAreOne, CallsAreOne};
ghost use Rattle.desk_laws.specs.Fixed.{AnswersAreFixed};
ghost use Rattle.desk_laws.specs.Laws.{OtherWordsAreUsage, GoodFilesAreAnswered, MissingFileIsOutside, RefusalIsTold, StatusesAreFew};

use bundle_verifier::any_answers_are_one;
use next_document::laws::next_is_one;
use order_bundle::{scoped_first_bad_line_is_unique, scoped_text_and_certificate_are_one};
use order_tiers::laws::orders_are_one;
use session_replies::laws::replies_are_one;
use table_bundle::laws::bundle_is_one;
use topics_pool::desk_is_one;

// What fixes the answer of a call over known files.
fn answers_are_fixed()
    ensures { AnswersAreFixed }
{
    scoped_text_and_certificate_are_one();
    scoped_first_bad_line_is_unique();
    desk_is_one();
    any_answers_are_one();
    bundle_is_one();
    orders_are_one();
    replies_are_one();
    next_is_one();
}

/// Words of no command: the status is `Usage`, or `Memory` where memory ran out, and no file was opened.
pub fn other_words_are_usage()
    ensures { OtherWordsAreUsage }
{}

/// Words of a command end with a status that it has by its meaning, with `Refused` where it opens files, with `Outside` or
/// `Memory`, and so never with `Usage`.
pub fn statuses_are_few()
    ensures { StatusesAreFew }
{
    answers_are_fixed();
}

/// Files that are all held and not refused: where nothing failed, the status is one that the command has, or `Memory`
/// where memory ran out.
pub fn good_files_are_answered()
    ensures { GoodFilesAreAnswered }
{
    answers_are_fixed();
}

/// A path that is not held, with nothing refused before it: the status is `Outside`, or `Memory` where memory ran out.
pub fn missing_file_is_outside()
    ensures { MissingFileIsOutside }
{
    answers_are_fixed();
}

/// Files that are refused: where the shelf did not fail, the status is `Refused` and the line of the first refusal is told,
/// or it is `Memory`, where memory ran out.
pub fn refusal_is_told()
    ensures { RefusalIsTold }
{
    answers_are_fixed();
}

/// Where neither the outside failed nor memory ran out, what the output received is empty or ends with a line feed, and so
/// is the line that the error output is told.
pub fn texts_end_their_lines()
    ensures { TextsEndTheirLines }
{
    answers_are_fixed();
}

/// Over known files and one input a command has one answer; so two calls of it end with one status, one text and one line,
/// where neither the outside failed nor memory ran out.
pub fn answer_is_one()
    ensures answers { AnswersAreOne }
    ensures calls { CallsAreOne }
{
    answers_are_fixed();
}
