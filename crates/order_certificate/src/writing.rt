//! The text of a certificate, put at the end of bytes line by line.
ghost use Rattle.std.specs.Prelude.{◌≡◌, ◌++◌, ◌∷◌, [], length, codes, decimal, map, flat_map, IfOk, OnOk};
ghost use Rattle.std.specs.Fmt.{signed_decimal};
ghost use Rattle.desk_model.specs.MeasureText.{measure_text};
ghost use Rattle.line_forms.specs.Form.{ended, text_of};
ghost use Rattle.line_forms.specs.Places.{count_line};
ghost use Rattle.order_certificate.specs.Certificate.{IsCertificate, certificate_text, from_first_lines, opening_lines, low_line, low_high_line, document_line, witness_lines, topics_line, evidence_lines};
ghost use Rattle.order_certificate.specs.Places.{IsText};

use crate::certificate::{Certificate, Evidence, TopicBound, TopicWitness};
use desk_model::{MeasureName, Memory, Name, push_measure, push_signed, push_whole};
use std::alloc::{AllocError, Global};

/// Puts a space and a number.
pub fn push_after_space(out: &mut Vec<u8>, number: i128) -> Result<(), AllocError>
    ensures { OnOk result (out.new.items ≡ out.old.items ++ 32 ∷ signed_decimal number) }
{
    out.extend_from_slice(b" ")?;
    push_signed(out, number)
}

/// Puts a line of a word and a text.
pub fn push_line(out: &mut Vec<u8>, word: &[u8], rest: &[u8]) -> Result<(), AllocError>
    ensures { OnOk result (out.new.items ≡ out.old.items ++ ended (word.now ++ rest.now)) }
{
    out.extend_from_slice(word)?;
    out.extend_from_slice(rest)?;
    out.extend_from_slice(b"\n")
}

/// Puts a line of a word and a number.
pub fn push_number_line(out: &mut Vec<u8>, word: &[u8], number: usize) -> Result<(), AllocError>
    ensures { OnOk result (out.new.items ≡ out.old.items ++ ended (word.now ++ decimal number)) }
{
    out.extend_from_slice(word)?;
    push_whole(out, number as u128)?;
    out.extend_from_slice(b"\n")
}

/// Puts the line of the measure.
pub fn push_measure_line(out: &mut Vec<u8>, measure: &MeasureName) -> Result<(), AllocError>
    ensures { OnOk result (out.new.items ≡ out.old.items ++ ended (codes "measure " ++ measure_text measure.now)) }
{
    out.extend_from_slice(b"measure ")?;
    push_measure(out, measure)?;
    out.extend_from_slice(b"\n")
}

fn push_low(out: &mut Vec<u8>, bound: &TopicBound) -> Result<(), AllocError>
    ensures { OnOk result (out.new.items ≡ out.old.items ++ low_line bound.now) }
{
    out.extend_from_slice(b"topic ")?;
    out.extend_from_slice(bound.topic.as_bytes())?;
    push_after_space(out, bound.low)
}

fn push_low_line(out: &mut Vec<u8>, bound: &TopicBound) -> Result<(), AllocError>
    ensures { OnOk result (out.new.items ≡ out.old.items ++ ended (low_line bound.now)) }
{
    push_low(out, bound)?;
    out.extend_from_slice(b"\n")
}

fn push_low_high_line(out: &mut Vec<u8>, bound: &TopicBound) -> Result<(), AllocError>
    ensures { OnOk result (out.new.items ≡ out.old.items ++ ended (low_high_line bound.now)) }
{
    push_low(out, bound)?;
    push_after_space(out, bound.high)?;
    out.extend_from_slice(b"\n")
}

fn push_lows(out: &mut Vec<u8>, bounds: &[TopicBound]) -> Result<(), AllocError>
    ensures { OnOk result (out.new.items ≡ out.old.items ++ text_of (map low_line bounds.now)) }
{
    for bound in bounds {
        push_low_line(out, bound)?;
    }
    Ok(())
}

fn push_lows_and_highs(out: &mut Vec<u8>, bounds: &[TopicBound]) -> Result<(), AllocError>
    ensures { OnOk result (out.new.items ≡ out.old.items ++
        text_of (map low_high_line bounds.now)) }
{
    for bound in bounds {
        push_low_high_line(out, bound)?;
    }
    Ok(())
}

/// Puts the lines of documents.
pub fn push_documents(out: &mut Vec<u8>, names: &[Name]) -> Result<(), AllocError>
    ensures { OnOk result (out.new.items ≡ out.old.items ++ text_of (map document_line names.now)) }
{
    for name in names {
        push_line(out, b"doc ", name.as_bytes())?;
    }
    Ok(())
}

/// Puts a line of a word, a topic and a number.
pub fn push_count_line(
    out: &mut Vec<u8>,
    word: &[u8],
    topic: &[u8],
    count: usize,
) -> Result<(), AllocError>
    ensures { OnOk result (out.new.items ≡ out.old.items ++
        ended (count_line word.now topic.now count)) }
{
    out.extend_from_slice(word)?;
    out.extend_from_slice(topic)?;
    push_number_line(out, b" ", count)
}

fn push_list(out: &mut Vec<u8>, word: &[u8], topic: &[u8], names: &[Name]) -> Result<(), AllocError>
    ensures { OnOk result (out.new.items ≡ out.old.items ++
        text_of (count_line word.now topic.now (length names.now) ∷ map document_line names.now)) }
{
    push_count_line(out, word, topic, names.len())?;
    push_documents(out, names)
}

fn push_witness(out: &mut Vec<u8>, witness: &TopicWitness) -> Result<(), AllocError>
    ensures { OnOk result (out.new.items ≡ out.old.items ++ text_of (witness_lines witness.now)) }
{
    push_list(
        out,
        b"low ",
        witness.topic.as_bytes(),
        witness.low.as_slice(),
    )?;
    push_list(
        out,
        b"high ",
        witness.topic.as_bytes(),
        witness.high.as_slice(),
    )
}

fn push_witnesses(out: &mut Vec<u8>, witnesses: &[TopicWitness]) -> Result<(), AllocError>
    ensures { OnOk result (out.new.items ≡ out.old.items ++
        text_of (flat_map witness_lines witnesses.now)) }
{
    for witness in witnesses {
        push_witness(out, witness)?;
    }
    Ok(())
}

fn push_claim(out: &mut Vec<u8>, claim: &[u8], topics: usize) -> Result<(), AllocError>
    ensures { OnOk result (out.new.items ≡ out.old.items ++ text_of ((codes "claim " ++ claim.now) ∷ topics_line topics ∷ [])) }
{
    push_line(out, b"claim ", claim)?;
    push_number_line(out, b"topics ", topics)
}

fn push_evidence(out: &mut Vec<u8>, evidence: &Evidence) -> Result<(), AllocError>
    ensures { OnOk result (out.new.items ≡ out.old.items ++ text_of (evidence_lines evidence.now)) }
{
    match evidence {
        Evidence::Above(bounds) => {
            push_claim(out, b"above", bounds.as_slice().len())?;
            push_lows(out, bounds.as_slice())
        }
        Evidence::Equal(bounds) => {
            push_claim(out, b"equal", bounds.as_slice().len())?;
            push_lows_and_highs(out, bounds.as_slice())
        }
        Evidence::Open(witnesses) => {
            push_claim(out, b"open", witnesses.as_slice().len())?;
            push_witnesses(out, witnesses.as_slice())
        }
    }
}

/// Puts the first lines: which form it is, and what the runs are compared by.
pub fn push_opening(out: &mut Vec<u8>, measure: &MeasureName, level: u32) -> Result<(), AllocError>
    ensures { OnOk result (out.new.items ≡ out.old.items ++
        text_of (opening_lines measure.now level)) }
{
    push_line(out, b"desk-certificate 1", b"")?;
    push_measure_line(out, measure)?;
    push_number_line(out, b"level ", level as usize)
}

fn push_runs(out: &mut Vec<u8>, first: &[u8], second: &[u8]) -> Result<(), AllocError>
    ensures { OnOk result (out.new.items ≡ out.old.items ++ text_of ((codes "first " ++ first.now) ∷ (codes "second " ++ second.now) ∷ [])) }
{
    push_line(out, b"first ", first)?;
    push_line(out, b"second ", second)
}

/// Puts the lines of a certificate from that of its first run on.
pub fn push_from_first(out: &mut Vec<u8>, certificate: &Certificate) -> Result<(), AllocError>
    ensures { OnOk result (out.new.items ≡ out.old.items ++
        text_of (from_first_lines certificate.now)) }
{
    push_runs(
        out,
        certificate.first.as_bytes(),
        certificate.second.as_bytes(),
    )?;
    push_evidence(out, &certificate.evidence)?;
    push_line(out, b"end", b"")
}

fn push_certificate(out: &mut Vec<u8>, certificate: &Certificate) -> Result<(), AllocError>
    ensures { OnOk result (out.new.items ≡ out.old.items ++ certificate_text certificate.now) }
{
    push_opening(out, &certificate.measure, certificate.level)?;
    push_from_first(out, certificate)
}

/// The text of a certificate, which has to be within the limits of the form. The only error is out of memory.
pub fn write_certificate(alloc: Global, certificate: &Certificate) -> Result<Vec<u8>, Memory>
    requires { IsCertificate certificate.now }
    ensures { IfOk result (λ text. IsText text.items certificate.now) }
{
    let mut out = Vec::new(alloc);
    push_certificate(&mut out, certificate)?;
    Ok(out)
}
