//! Measures as they are written.
ghost use Rattle.std.specs.Prelude.{◌≡◌, ◌≢◌, ℕ, ◌++◌, ◌∷◌, List, codes, decimal, replicate, IfOk, OnErr, IfSome, IfNone, length, ◌+◌, ◌≤◌, ◌<◌, ◌*◌, ◌^◌};
ghost use Rattle.desk_model.specs.MeasureText.{IsDepth, IsMeasure, IsPersistence, IsTextOf, measure_text, persistence_digits};
ghost use Rattle.desk_model.specs.declared.types.MeasureName.{MeasureName};
ghost use Rattle.desk_model.specs.declared.types.MeasureName.TheVariants.{Biased};

use crate::types::MeasureName;
use desk_text::{plain, whole};

/// The text is of no measure.
#[derive(Clone, Copy, PartialEq, Eq, Debug)]
pub struct UnknownMeasure;

/// The measure that the text names: `P_k` or `recall_k` with k from 1 to 10,000 in digits without a leading
/// zero, `Rprec`, `recip_rank`, or `rbp_0.` and 1 to 6 digits that are not all 0. Zeros at the end of a
/// persistence are passed over. `UnknownMeasure` comes exactly where the text is of no measure. It takes no memory.
pub fn read_measure(text: &[u8]) -> Result<MeasureName, UnknownMeasure>
    ensures measure { IfOk result (λ m. IsMeasure m) }
    ensures text { IfOk result (λ m. IsTextOf m text.now) }
    ensures unknown { OnErr result ((m : MeasureName) → IsMeasure m → IsTextOf m text.now → ⊥) }
{
    if text == b"Rprec".as_slice() {
        return Ok(MeasureName::RPrecision);
    }
    if text == b"recip_rank".as_slice() {
        return Ok(MeasureName::Reciprocal);
    }
    if text == b"map".as_slice() {
        return Ok(MeasureName::AveragePrecision);
    }
    if let Some(k) = depth_after(text, b"P_") {
        return Ok(MeasureName::Precision(k));
    }
    if let Some(k) = depth_after(text, b"recall_") {
        return Ok(MeasureName::Recall(k));
    }
    match biased(text) {
        Some(measure) => Ok(measure),
        None => Err(UnknownMeasure),
    }
}

/// A text is of one measure at most.
pub fn measure_of_text_is_unique()
    ensures { (text : List ℕ) (a b : MeasureName) → IsMeasure a → IsMeasure b → IsTextOf a text →
        IsTextOf b text → a ≡ b }
{}

// The text after the prefix.
fn after<'a>(text: &'a [u8], prefix: &[u8]) -> Option<&'a [u8]>
    ensures some { IfSome result (λ rest. text.now ≡ prefix.now ++ rest.now) }
    ensures none { IfNone result ((rest : List ℕ) → text.now ≢ prefix.now ++ rest) }
{
    text.strip_prefix(prefix)
}

// The depth that stands after the prefix.
fn depth_after(text: &[u8], prefix: &[u8]) -> Option<u32>
    ensures depth { IfSome result (λ k. IsDepth k) }
    ensures some { IfSome result (λ k. text.now ≡ prefix.now ++ decimal k) }
    ensures none { IfNone result ((k : ℕ) → IsDepth k → text.now ≢ prefix.now ++ decimal k) }
{
    let digits = after(text, prefix)?;
    let depth = plain(digits, 10_000)?;
    if depth == 0 {
        return None;
    }
    Some(depth as u32)
}

// The rank-biased precision of the text.
fn biased(text: &[u8]) -> Option<MeasureName>
    ensures measure { IfSome result (λ m. IsMeasure m) }
    ensures some { IfSome result (λ m. IsTextOf m text.now) }
    ensures none { IfNone result ((top bottom : ℕ) → IsPersistence top bottom →
        IsTextOf (Biased top bottom) text.now → ⊥) }
{
    let decimals = after(text, b"rbp_0.")?;
    let top = top_of(decimals)?;
    Some(shortest(decimals, top))
}

// The number that 1 to 6 decimals say, if they are digits that are not all 0.
fn top_of(decimals: &[u8]) -> Option<u32>
    ensures few { IfSome result (λ _. length decimals.now ≤ 6) }
    ensures some { IfSome result (λ top. (0 < top) × (top < 10 ^ length decimals.now) ×
        (decimal (10 ^ length decimals.now + top) ≡ 49 ∷ decimals.now)) }
    ensures none { IfNone result ((top : ℕ) → 0 < top → top < 10 ^ length decimals.now →
        length decimals.now ≤ 6 → decimal (10 ^ length decimals.now + top) ≢ 49 ∷ decimals.now) }
{
    if decimals.len() > 6 {
        return None;
    }
    if !decimals.is_empty() && decimals[0] == b'+' {
        return None;
    }
    let top = whole(decimals, 1, 999_999)?;
    Some(top as u32)
}

// The rank-biased precision of these decimals, without the zeros at their end.
fn shortest(decimals: &[u8], top: u32) -> MeasureName
    requires few { length decimals.now ≤ 6 }
    requires positive { 0 < top }
    requires below_one { top < 10 ^ length decimals.now }
    requires written { decimal (10 ^ length decimals.now + top) ≡ 49 ∷ decimals.now }
    ensures measure { IsMeasure result }
    ensures text { IsTextOf result (codes "rbp_0." ++ decimals.now) }
{
    let mut top = top;
    let mut places = decimals.len() as u32;
    while top % 10 == 0 {
        top /= 10;
        places -= 1;
    }
    MeasureName::Biased {
        top,
        bottom: 10_u32.pow(places),
    }
}
