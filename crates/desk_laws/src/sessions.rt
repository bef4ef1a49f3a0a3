//! Laws of sessions, each the contract of a function that does nothing.
ghost use Rattle.desk_laws.specs.Settled.{SettledWordsStay, SwappedWordsFollow};
ghost use Rattle.desk_laws.specs.Replaced.{FilesComeAgain, GradesAreInForce};
ghost use Rattle.desk_laws.specs.Accepted.{CertificatesAreAccepted, ChecksAccept};

use order_bundle::{
    scoped_certificates_have_texts, scoped_first_bad_line_is_unique,
    scoped_text_and_certificate_are_one,
};

/// Where a session replied to `pair FIRST SECOND` with the word `above`, `below` or `equal`, it replies to each later
/// such line with the same word, and to `pair SECOND FIRST` with the swapped one, as long as each change between that
/// was accepted is a judgement of a document whose mark was unjudged.
pub fn settled_words_stay()
    ensures same { SettledWordsStay }
    ensures swapped { SwappedWordsFollow }
{}

/// The grades in force of a session over the desk of files are grades of a judgements file: one, from 0 to 1,000, or
/// none for each document.
pub fn grades_are_in_force()
    ensures { GradesAreInForce }
{}

/// The files of a desk, with the judgements in force as a text in the place of the judgements file, come to rows whose
/// desk has the same topics, universes, runs and rankings, and whose marks at each level and under each depth are those
/// in force. Else a limit is passed: the bytes of a file, the rows of a judgements file, or the bytes of document names.
pub fn files_come_again()
    ensures { FilesComeAgain }
{}

/// A certificate that a session replies is accepted over the same files with the session's judgements of that moment.
pub fn certificates_are_accepted()
    ensures { CertificatesAreAccepted }
{
    scoped_certificates_have_texts();
    scoped_text_and_certificate_are_one();
}

/// The command `verify` over the files of a session, with the session's reply to `qrels` as the judgements file and a
/// certificate that it replied at the same moment: where all are within the limits and nothing failed, the output received
/// the line `accepted` and the status is `Done`, or it is `Memory`, where memory ran out.
pub fn checks_accept()
    ensures { ChecksAccept }
{
    scoped_certificates_have_texts();
    scoped_text_and_certificate_are_one();
    scoped_first_bad_line_is_unique();
}
