// Rolling the use of a budget back.
#![tactic(auto)]

ghost use Rattle.output_budget.specs.Budget.{RollsBack};

use output_budget::{AboveUse, DecodedOutputBudget};
use output_preflight::{FieldValues, PayloadBytes};

// Back to counts that are not above those in use; what was recorded goes.
#[tactic(auto, unfolding(output_budget::specs::Budget::rollback_told, output_budget::specs::Budget::rollback_budget))]
pub fn rollback(
    b: &mut DecodedOutputBudget,
    values: FieldValues,
    payload: PayloadBytes,
) -> Result<(), AboveUse>
    ensures { RollsBack b.old values payload result b.new }
{
    if b.used_values < values {
        return Err(AboveUse);
    }
    if b.used_payload_bytes < payload {
        return Err(AboveUse);
    }
    b.used_values = values;
    b.used_payload_bytes = payload;
    b.exceeded = None;
    Ok(())
}
