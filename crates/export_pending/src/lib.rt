// Queued bodies against a budget, which crosses as seven words (budget_words). A number and a cost come apart because C
// hands them over so: `read_preflight` makes them one value.
#![tactic(auto)]

ghost use Rattle.export_pending.specs.Pending.{FitsWhole, FitsRemaining, MaterializesIn};

use answer_numbers::number_of;
use budget_words::{export_materialize, read_budget, read_preflight, read_report, write_budget};

// Whether a body can ever fit: 0, or 7 or 8.
pub fn validate_pending_full_budget(budget: &[u64; 7], number: u32, cost: &[u64; 3]) -> u32
    ensures { FitsWhole budget.now number cost.now result }
{
    let b = read_budget(budget);
    let preflight = read_preflight(number, cost);
    number_of(output_pending::validate_pending_full_budget(b, preflight))
}

// Whether a body fits what remains: 0, or 7, 8 or 22.
pub fn validate_pending_remaining(budget: &[u64; 7], number: u32, cost: &[u64; 3]) -> u32
    ensures { FitsRemaining budget.now number cost.now result }
{
    let b = read_budget(budget);
    let preflight = read_preflight(number, cost);
    number_of(output_pending::validate_pending_remaining(b, preflight))
}

// Commits the cost where the body fits and the report agrees: 0 with the remainder's length written, or 7, 8 or 22.
pub fn materialize_pending(
    budget: &mut [u64; 7],
    number: u32,
    cost: &[u64; 3],
    success: u32,
    reported: &[u64; 3],
    remainder: &mut [u64; 1],
) -> u32
    ensures { MaterializesIn number cost.now success reported.now result
        remainder.old remainder.new budget.old budget.new }
{
    let mut b = read_budget(budget);
    let preflight = read_preflight(number, cost);
    let report = read_report(success, reported);
    let answer = output_pending::materialize_pending(&mut b, preflight, report);
    if answer.is_ok() {
        write_budget(b, budget);
    }
    export_materialize(answer, remainder)
}
