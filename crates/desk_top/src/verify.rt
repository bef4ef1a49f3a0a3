// The command that checks a certificate of either version.
ghost use Rattle.std.specs.Prelude.{◌≡◌, ◌++◌, ℕ, IfOk, IfErr, OnOk, codes, decimal};
ghost use Rattle.desk_files.specs.Reads.{ReadsFiles, extent_of};
ghost use Rattle.desk_files.specs.Views.{answer_of};
ghost use Rattle.desk_outside.specs.Seen.{shelf};
ghost use Rattle.order_bundle.specs.Scoped.{IsScoped};
ghost use Rattle.desk_top.specs.Loading.{check_loading, OpensWithin};
ghost use Rattle.desk_top.specs.Meaning.{check_meaning};
ghost use Rattle.desk_top.specs.Verification.{IsReasonOn, claim_text, file_line, reason_text, rejection_text, verification_text, IsChecked};
ghost use Rattle.desk_top.specs.Works.{Works};

use crate::outcome::Outcome;
use crate::status::Status;
use crate::tell::push_number;
use bundle_verifier::{BundleRejected, check_any};
use desk_files::{Stop, load_check};
use desk_model::{Desk, Marks, Memory, push_whole};
use desk_outside::Shelf;
use desk_words::Check;
use order_bundle::Scoped;
use order_verifier::Rejected;
use std::alloc::{AllocError, Global};

// Which claim is rejected.
fn push_claim(text: &mut Vec<u8>, claim: u32) -> Result<(), AllocError>
    ensures { OnOk result (text.new.items ≡ text.old.items ++ claim_text claim) }
{
    if claim == 0 {
        return Ok(());
    }
    text.extend_from_slice(b"claim ")?;
    push_number(text, u64::from(claim))?;
    text.push(b' ')?;
    Ok(())
}

// A line of the file of a certificate, by its number where the line of the depth is not counted.
fn push_line(text: &mut Vec<u8>, depth: Option<u32>, line: u64) -> Result<(), AllocError>
    ensures { OnOk result (text.new.items ≡ text.old.items ++ decimal (file_line depth line)) }
{
    match depth {
        None => push_whole(text, u128::from(line)),
        Some(_) => push_whole(text, u128::from(line) + 1),
    }
}

// Why it is rejected.
fn push_reason(
    text: &mut Vec<u8>,
    desk: &Desk,
    depth: Option<u32>,
    why: Rejected,
) -> Result<(), AllocError>
    requires { IsReasonOn desk.now why }
    ensures { OnOk result (text.new.items ≡ text.old.items ++ reason_text desk.now depth why) }
{
    match why {
        Rejected::WrongNames { line } => {
            text.extend_from_slice(b"WrongNames line ")?;
            push_line(text, depth, line)
        }
        Rejected::BoundTooGreat { topic } => {
            text.extend_from_slice(b"BoundTooGreat topic ")?;
            text.extend_from_slice(desk.topic(topic).name())
        }
        Rejected::NoSum => text.extend_from_slice(b"NoSum"),
        Rejected::NotCompletion { line } => {
            text.extend_from_slice(b"NotCompletion line ")?;
            push_line(text, depth, line)
        }
        Rejected::NoDifference => text.extend_from_slice(b"NoDifference"),
    }
}

// The line of a rejection.
fn rejection(
    alloc: Global,
    desk: &Desk,
    depth: Option<u32>,
    rejected: BundleRejected,
) -> Result<Vec<u8>, AllocError>
    requires { IsReasonOn desk.now rejected.why }
    ensures { IfOk result (λ text. text.items ≡ codes "rejected " ++ rejection_text desk.now depth rejected ++ codes "\n") }
{
    let mut text = Vec::from_slice(alloc, b"rejected ")?;
    push_claim(&mut text, rejected.claim)?;
    push_reason(&mut text, desk, depth, rejected.why)?;
    text.push(b'\n')?;
    Ok(text)
}

// The line that tells what checking a certificate answered.
fn line_of(
    alloc: Global,
    desk: &Desk,
    depth: Option<u32>,
    answer: Result<(), BundleRejected>,
) -> Result<Vec<u8>, AllocError>
    requires { IfErr answer (λ rejected. IsReasonOn desk.now rejected.why) }
    ensures { IfOk result (λ text. text.items ≡ verification_text desk.now depth answer) }
{
    match answer {
        Ok(()) => Vec::from_slice(alloc, b"accepted\n"),
        Err(rejected) => rejection(alloc, desk, depth, rejected),
    }
}

// What checking a certificate over a desk makes.
fn verification(alloc: Global, desk: &Desk, certificate: &Scoped) -> Result<Outcome, Memory>
    requires { IsScoped certificate.now }
    ensures { IfOk result (IsChecked certificate.now desk.now) }
{
    desk.valid();
    let depth = certificate.depth;
    let body = &certificate.body;
    let marks = Marks::of_file(alloc, desk, body.level(), depth)?;
    let answer = check_any(alloc, desk, &marks, body)?;
    let status = if answer.is_ok() {
        Status::Done
    } else {
        Status::Rejected
    };
    let text = line_of(alloc, desk, depth, answer)?;
    Ok(Outcome::Prints { text, status })
}

/// The answer of the verifier to the certificate of a check, of either version, over its desk.
pub fn check_outcome<'a, F: Shelf>(
    alloc: Global,
    files: &mut F,
    check: &'a Check,
) -> Result<Outcome, Stop<'a>>
    ensures works { (cells : ℕ) →
        Works (check_meaning check.now) (shelf (F.state files.old) (F.state files.new)) cells cells
        result }
    ensures opened { OpensWithin (check_loading check.now)
        (shelf (F.state files.old) (F.state files.new)) }
    ensures reads { ReadsFiles (extent_of (answer_of result)) (F.state files.old).calls
        (F.state files.new).calls }
    ensures files { (F.state files.new).files ≡ (F.state files.old).files }
{
    let (desk, certificate) = load_check(alloc, files, check)?;
    let outcome = verification(alloc, &desk, &certificate)?;
    Ok(outcome)
}
