// Reserving two counts of a budget: each sum against its limit, and the first excess.
#![tactic(auto)]

ghost use Rattle.std.specs.Prelude.{◌≡◌, ◌+◌, ltb, cond};
ghost use Rattle.output_budget.specs.Budget.{Reserves, attempted_sum, first_excess, recorded};

use output_budget::{DecodedOutputBudget, DecodedOutputLimit, OutputBudgetExceeded};
use output_preflight::{FieldValues, PayloadBytes};

// Whether the sum is above the limit, also where it is above 2^64 - 1.
fn passes(max: usize, used: usize, more: usize) -> bool
    ensures { result ≡ ltb max (used + more) }
{
    used.checked_add(more).is_none_or(|sum| max < sum)
}

// The sum, or the largest count where the sum is above it.
fn attempted(used: usize, more: usize) -> usize
    ensures { result ≡ attempted_sum used more }
{
    used.saturating_add(more)
}

// What is recorded once `excess` happens: the first one stays.
fn first(
    kept: Option<OutputBudgetExceeded>,
    excess: OutputBudgetExceeded,
) -> Option<OutputBudgetExceeded>
    ensures { result ≡ first_excess kept excess }
{
    kept.or(Some(excess))
}

// The excess of one count, where its sum passes the limit.
fn excess_of(
    limit: DecodedOutputLimit,
    max: usize,
    used: usize,
    more: usize,
) -> Option<OutputBudgetExceeded>
    ensures { result ≡ cond (ltb max (used + more))
        (Some (record { limit = limit; configured = max; attempted = attempted_sum used more })) None }
{
    passes(max, used, more).then(|| OutputBudgetExceeded {
        limit,
        configured: max,
        attempted: attempted(used, more),
    })
}

// A refused reservation: the use stays as it was.
fn exceed(
    b: &mut DecodedOutputBudget,
    excess: OutputBudgetExceeded,
) -> Result<(), OutputBudgetExceeded>
    ensures answer { result ≡ Err excess }
    ensures budget { b.new ≡ recorded b.old excess }
{
    b.exceeded = first(b.exceeded, excess);
    Err(excess)
}

// Both counts are reserved, or none of them: values are tested before payload.
#[tactic(auto, unfolding(output_budget::specs::Budget::reserve_told, output_budget::specs::Budget::reserve_budget))]
pub fn reserve(
    b: &mut DecodedOutputBudget,
    values: FieldValues,
    payload: PayloadBytes,
) -> Result<(), OutputBudgetExceeded>
    ensures { Reserves b.old values payload result b.new }
{
    let (max, used) = (b.max_values.0, b.used_values.0);
    if let Some(excess) = excess_of(DecodedOutputLimit::FieldValues, max, used, values.0) {
        return exceed(b, excess);
    }
    let (max, used) = (b.max_payload_bytes.0, b.used_payload_bytes.0);
    if let Some(excess) = excess_of(DecodedOutputLimit::FieldPayloadBytes, max, used, payload.0) {
        return exceed(b, excess);
    }
    b.grow(values, payload);
    Ok(())
}
