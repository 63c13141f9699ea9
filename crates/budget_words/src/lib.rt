// A budget as seven words, and a call's answer as a number and words: what functions over plain words read and write.
// The words of a budget: the limits of the field values and of the payload bytes, both counts in use, and the recorded
// excess (0 none, 1 of the values, 2 of the payload) with its configured figure and its attempted sum.
#![tactic(auto)]

ghost use Rattle.std.specs.Prelude.{◌≡◌, [], ◌∷◌};
ghost use Rattle.output_budget.specs.Budget.{values_of_excess, told_of_exceeded, told_of_reserve};
ghost use Rattle.output_limits.specs.Limits.{told_of_limits};
ghost use Rattle.output_pending.specs.Pending.{told_of_materialize};
ghost use Rattle.budget_words.specs.Words.{exceeded_of, budget_of, words_of, cost_of, preflight_by, report_by};
ghost use Rattle.budget_words.specs.Words.{written_over, Answers};

use answer_numbers::{number_of, write_count, write_values};
use output_budget::{DecodedOutputBudget, DecodedOutputLimit, OutputBudgetExceeded};
use output_limits::{DecodedOutputLimits, LimitsRefusal};
use output_pending::PendingOutputError;
use output_preflight::{FieldValues, PayloadBytes, PendingOutputPreflight, Refusal};

// The recorded excess of three words. A number is matched: a caller's word can be any, and one of no limit says none.
fn read_exceeded(which: u64, configured: u64, attempted: u64) -> Option<OutputBudgetExceeded>
    ensures { result ≡ exceeded_of which configured attempted }
{
    let limit = match which {
        1 => DecodedOutputLimit::FieldValues,
        2 => DecodedOutputLimit::FieldPayloadBytes,
        _ => return None,
    };
    Some(OutputBudgetExceeded {
        limit,
        configured: configured as usize,
        attempted: attempted as usize,
    })
}

// The budget of seven words, as C hands them over. A count is made by its type's name, here and below: with `From<u64>`
// and `.into()`, which was tried, no line would say which of the two counts a number is.
#[tactic(auto, unfolding(crate::specs::Words::budget_of))]
pub fn read_budget(words: &[u64; 7]) -> DecodedOutputBudget
    ensures { result ≡ budget_of words.now }
{
    DecodedOutputBudget {
        max_values: FieldValues(words[0] as usize),
        max_payload_bytes: PayloadBytes(words[1] as usize),
        used_values: FieldValues(words[2] as usize),
        used_payload_bytes: PayloadBytes(words[3] as usize),
        exceeded: read_exceeded(words[4], words[5], words[6]),
    }
}

// The words of an excess: which limit, its configured figure and the attempted sum.
// An array, and no `From`: neither type is of this crate, and the crate of the figures knows no words.
fn excess_words(excess: OutputBudgetExceeded) -> [u64; 3]
    ensures { result ≡ values_of_excess excess }
{
    [
        u64::from(excess.limit),
        excess.configured as u64,
        excess.attempted as u64,
    ]
}

// Writes a budget into seven words.
#[tactic(auto, unfolding(crate::specs::Words::words_of))]
pub fn write_budget(b: DecodedOutputBudget, words: &mut [u64; 7])
    ensures { words.new ≡ words_of b }
{
    let [which, configured, attempted] = b.exceeded.map_or([0; 3], excess_words);
    *words = [
        b.max_values.0 as u64,
        b.max_payload_bytes.0 as u64,
        b.used_values.0 as u64,
        b.used_payload_bytes.0 as u64,
        which,
        configured,
        attempted,
    ];
}

// A cost of three words.
fn read_cost(words: &[u64; 3]) -> PendingOutputPreflight
    ensures { result ≡ cost_of words.now }
{
    PendingOutputPreflight {
        field_values: FieldValues(words[0] as usize),
        field_payload_bytes: PayloadBytes(words[1] as usize),
        remainder_len: words[2] as usize,
    }
}

// A preflight, as the number and the cost that C hands over: what one of the preflight functions gave.
#[tactic(auto, unfolding(crate::specs::Words::preflight_by))]
pub fn read_preflight(number: u32, cost: &[u64; 3]) -> Result<PendingOutputPreflight, Refusal>
    ensures { result ≡ preflight_by number cost.now }
{
    if number == 0 {
        Ok(read_cost(cost))
    } else {
        Err(Refusal::Invalid)
    }
}

// The decoder's report, as the number and the cost that C hands over: none where it failed.
#[tactic(auto, unfolding(crate::specs::Words::report_by))]
pub fn read_report(success: u32, reported: &[u64; 3]) -> Option<PendingOutputPreflight>
    ensures { result ≡ report_by success reported.now }
{
    if success == 0 {
        None
    } else {
        Some(read_cost(reported))
    }
}

// Three limits as words.
// An array, and no `From`: neither type is of this crate, and the crate of the figures knows no words.
fn limit_words(accepted: DecodedOutputLimits) -> [u64; 3]
    ensures { result ≡ accepted.max_records ∷ accepted.max_field_values.0 ∷ accepted.max_field_payload_bytes.0 ∷ [] }
{
    [
        accepted.max_records as u64,
        accepted.max_field_values.0 as u64,
        accepted.max_field_payload_bytes.0 as u64,
    ]
}

// Answers the number of a limits call, and writes the limits on success.
pub fn export_limits(
    answer: Result<DecodedOutputLimits, LimitsRefusal>,
    limits: &mut [u64; 3],
) -> u32
    ensures { Answers (told_of_limits answer) result limits.old limits.new }
{
    write_values(answer, limits, limit_words)
}

// Writes an excess where there is one.
fn write_excess(exceeded: Option<OutputBudgetExceeded>, excess: &mut [u64; 3])
    ensures { excess.new ≡ written_over (told_of_exceeded exceeded).values excess.old }
{
    if let Some(exceeded) = exceeded {
        *excess = excess_words(exceeded);
    }
}

// Answers the number of a reservation, and writes the excess where it is refused.
pub fn export_reserve(answer: Result<(), OutputBudgetExceeded>, excess: &mut [u64; 3]) -> u32
    ensures { Answers (told_of_reserve answer) result excess.old excess.new }
{
    write_excess(answer.err(), excess);
    number_of(answer)
}

// Answers 0, and writes the excess where one was recorded.
pub fn export_exceeded(exceeded: Option<OutputBudgetExceeded>, excess: &mut [u64; 3]) -> u32
    ensures { Answers (told_of_exceeded exceeded) result excess.old excess.new }
{
    write_excess(exceeded, excess);
    0
}

// Answers the number of a materializing, and writes the remainder's length on success.
pub fn export_materialize(
    answer: Result<usize, PendingOutputError>,
    remainder: &mut [u64; 1],
) -> u32
    ensures { Answers (told_of_materialize answer) result remainder.old remainder.new }
{
    write_count(answer, &mut remainder[0])
}
