// Whether a queued body fits the budget by its preflight, and what decoding it commits.
#![tactic(auto)]

ghost use Rattle.std.specs.Prelude.{◌≡◌, cond};
ghost use Rattle.output_budget.specs.Budget.{whole_of, remaining_of};
ghost use Rattle.output_pending.specs.Pending.{above, agrees, told_of_error};
ghost use Rattle.output_pending.specs.Pending.{told_of_fit, full_budget_told, remaining_told, Materializes};

use output_budget::{DecodedOutputBudget, OutputCounts};
use output_preflight::{PendingOutputPreflight, Refusal};

// Why a queued body is not decoded, or its decoding not taken.
#[derive(Clone, Copy, Debug, PartialEq, Eq)]
pub enum PendingOutputError {
    // within the whole budget, but above what remains
    TemporarilyDoesNotFit,
    // above the whole budget
    NeverFits,
    // no valid framing, or a decoder's report that does not agree with the preflight
    Invalid,
}

// Document 01's number of each refusal.
impl From<PendingOutputError> for u32 {
    ghost from_gives = { λ error number. number ≡ (told_of_error error).number };

    fn from(error: PendingOutputError) -> u32 {
        match error {
            PendingOutputError::Invalid => 7,
            PendingOutputError::NeverFits => 8,
            PendingOutputError::TemporarilyDoesNotFit => 22,
        }
    }
}

// Whether the cost is above these counts, in either of the two.
fn is_above(cost: PendingOutputPreflight, counts: OutputCounts) -> bool
    ensures { result ≡ above cost counts }
{
    counts.values < cost.field_values || counts.payload_bytes < cost.field_payload_bytes
}

// Whether the decoder succeeded with this cost and this remainder.
fn report_agrees(cost: PendingOutputPreflight, report: Option<PendingOutputPreflight>) -> bool
    ensures { result ≡ agrees cost report }
{
    report == Some(cost)
}

// Both limits.
fn whole(b: DecodedOutputBudget) -> OutputCounts
    ensures { result ≡ whole_of b }
{
    OutputCounts {
        values: b.max_values,
        payload_bytes: b.max_payload_bytes,
    }
}

// Whether a cost can ever fit.
fn fits_whole(
    b: DecodedOutputBudget,
    cost: PendingOutputPreflight,
) -> Result<(), PendingOutputError>
    ensures { result ≡ cond (above cost (whole_of b)) (Err PendingOutputError.NeverFits) (Ok tt) }
{
    if is_above(cost, whole(b)) {
        return Err(PendingOutputError::NeverFits);
    }
    Ok(())
}

// Whether a cost fits what remains.
fn fits_remaining(
    b: DecodedOutputBudget,
    cost: PendingOutputPreflight,
) -> Result<(), PendingOutputError>
    ensures { result ≡ cond (above cost (whole_of b)) (Err PendingOutputError.NeverFits)
        (cond (above cost (remaining_of b)) (Err PendingOutputError.TemporarilyDoesNotFit) (Ok tt)) }
{
    fits_whole(b, cost)?;
    if is_above(cost, b.remaining()) {
        return Err(PendingOutputError::TemporarilyDoesNotFit);
    }
    Ok(())
}

// Whether the body can ever fit.
#[tactic(auto, unfolding(crate::specs::Pending::full_budget_told))]
pub fn validate_pending_full_budget(
    b: DecodedOutputBudget,
    preflight: Result<PendingOutputPreflight, Refusal>,
) -> Result<(), PendingOutputError>
    ensures { told_of_fit result ≡ full_budget_told b preflight }
{
    // taken apart first: the form that document 01 names for this place
    let Ok(cost) = preflight else {
        return Err(PendingOutputError::Invalid);
    };
    fits_whole(b, cost)
}

// Whether the body fits what remains.
#[tactic(auto, unfolding(crate::specs::Pending::remaining_told))]
pub fn validate_pending_remaining(
    b: DecodedOutputBudget,
    preflight: Result<PendingOutputPreflight, Refusal>,
) -> Result<(), PendingOutputError>
    ensures { told_of_fit result ≡ remaining_told b preflight }
{
    // taken apart first: the form that document 01 names for this place
    let Ok(cost) = preflight else {
        return Err(PendingOutputError::Invalid);
    };
    fits_remaining(b, cost)
}

// The cost is committed where the body fits and the decoder reports what the preflight found. A decoder that failed
// reports none.
#[tactic(auto, using(crate::proofs::Materials::left_within), unfolding(crate::specs::Pending::materialize_told, crate::specs::Pending::materialize_budget))]
pub fn materialize_pending(
    b: &mut DecodedOutputBudget,
    preflight: Result<PendingOutputPreflight, Refusal>,
    report: Option<PendingOutputPreflight>,
) -> Result<usize, PendingOutputError>
    ensures { Materializes b.old preflight report result b.new }
{
    // taken apart first: the form that document 01 names for this place
    let Ok(cost) = preflight else {
        return Err(PendingOutputError::Invalid);
    };
    fits_remaining(*b, cost)?;
    if !report_agrees(cost, report) {
        return Err(PendingOutputError::Invalid);
    }
    b.grow(cost.field_values, cost.field_payload_bytes);
    Ok(cost.remainder_len)
}
