// The limits of a message, and a budget with two of them, which crosses as seven words (budget_words).
#![tactic(auto)]

ghost use Rattle.export_limits.specs.Limits.{TestsLimits, Opens, Resets};

use budget_words::{export_limits, read_budget, write_budget};
use output_budget::DecodedOutputBudget;
use output_limits::DecodedOutputLimits;
use output_preflight::{FieldValues, PayloadBytes};

// The limits call: 0 with the three limits written, or 9, 10 or 11 for one that is 0.
pub fn limits(
    max_records: u64,
    max_values: u64,
    max_payload_bytes: u64,
    limits: &mut [u64; 3],
) -> u32
    ensures { TestsLimits max_records max_values max_payload_bytes result limits.old limits.new }
{
    let answer = DecodedOutputLimits::new(
        max_records as usize,
        // A count by its type's name, as in budget_words: by `.into()` no line would say which of the two it is.
        FieldValues(max_values as usize),
        PayloadBytes(max_payload_bytes as usize),
    );
    export_limits(answer, limits)
}

// An unused budget with any two limits. Answers 0.
pub fn new(budget: &mut [u64; 7], max_values: u64, max_payload_bytes: u64) -> u32
    ensures { Opens max_values max_payload_bytes result budget.new }
{
    let values = max_values as usize;
    let payload = max_payload_bytes as usize;
    let opened = DecodedOutputBudget::new(FieldValues(values), PayloadBytes(payload));
    write_budget(opened, budget);
    0
}

// The same limits, with nothing used and nothing recorded. Answers 0.
#[tactic(auto, unfolding(budget_words::specs::Words::budget_of))]
pub fn reset(budget: &mut [u64; 7]) -> u32
    ensures { Resets result budget.old budget.new }
{
    let mut b = read_budget(budget);
    b.reset();
    write_budget(b, budget);
    0
}

// Other limits, with nothing used and nothing recorded. Answers 0.
pub fn set_limits(budget: &mut [u64; 7], max_values: u64, max_payload_bytes: u64) -> u32
    ensures { Opens max_values max_payload_bytes result budget.new }
{
    let mut b = read_budget(budget);
    let values = max_values as usize;
    let payload = max_payload_bytes as usize;
    b.set_limits(FieldValues(values), PayloadBytes(payload));
    write_budget(b, budget);
    0
}
