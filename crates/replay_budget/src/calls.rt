// The calls of a recorded list, and their answers.
use super::rows::{Call, preflight_of, report_of};
use answer_numbers::number_of;
use budget_words::{export_exceeded, export_materialize, export_reserve};
use output_budget::DecodedOutputBudget;
use output_excess::{is_exceeded, take_exceeded};
use output_limits::DecodedOutputLimits;
use output_pending::{
    materialize_pending, validate_pending_full_budget, validate_pending_remaining,
};
use output_preflight::{FieldValues, PayloadBytes};
use output_reserve::reserve;
use output_rollback::rollback;

// An answer as document 01's number, 0 where the call was done, and its values.
// A number beside a value, as a recorded row has them: of calls whose refusals are of different types.
#[derive(Clone, Copy)]
pub struct Told {
    pub number: u32,
    pub values: [u64; 3],
}

// A call that was done, with its values.
fn done(values: [u64; 3]) -> Told {
    Told { number: 0, values }
}

// An answer that has no values.
fn numbered<E: Into<u32>>(answer: Result<(), E>) -> Told {
    Told {
        number: number_of(answer),
        values: [0; 3],
    }
}

// Reserves on the budget.
fn run_reserve(b: &mut DecodedOutputBudget, values: FieldValues, payload: PayloadBytes) -> Told {
    let mut excess = [0; 3];
    let number = export_reserve(reserve(b, values, payload), &mut excess);
    Told {
        number,
        values: excess,
    }
}

// Takes the budget's excess.
fn run_take(b: &mut DecodedOutputBudget) -> Told {
    let mut excess = [0; 3];
    let number = export_exceeded(take_exceeded(b), &mut excess);
    Told {
        number,
        values: excess,
    }
}

// Materializes the preflight of a row with its report.
fn run_materialize(row: &[u64; 19], b: &mut DecodedOutputBudget) -> Told {
    let mut left = [0];
    let answer = materialize_pending(b, preflight_of(row), report_of(row));
    let number = export_materialize(answer, &mut left);
    Told {
        number,
        values: [left[0], 0, 0],
    }
}

// Accepts limits, or refuses them.
fn run_limits(row: &[u64; 19]) -> Told {
    // A count by its type's name, as in budget_words: by `.into()` no line would say which of the two it is.
    let values = FieldValues(row[2] as usize);
    let payload = PayloadBytes(row[3] as usize);
    numbered(DecodedOutputLimits::new(row[1] as usize, values, payload).map(|_| ()))
}

// Runs the call of a row on the budget.
pub fn run_call(row: &[u64; 19], b: &mut DecodedOutputBudget) -> Told {
    let values = FieldValues(row[1] as usize);
    let payload = PayloadBytes(row[2] as usize);
    match Call::from(row[0]) {
        Call::New => {
            *b = DecodedOutputBudget::new(values, payload);
            done([0; 3])
        }
        Call::Reset => {
            b.reset();
            done([0; 3])
        }
        Call::SetLimits => {
            b.set_limits(values, payload);
            done([0; 3])
        }
        Call::Reserve => run_reserve(b, values, payload),
        Call::Rollback => numbered(rollback(b, values, payload)),
        Call::TakeExceeded => run_take(b),
        Call::ValidateFullBudget => numbered(validate_pending_full_budget(*b, preflight_of(row))),
        Call::ValidateRemaining => numbered(validate_pending_remaining(*b, preflight_of(row))),
        Call::Materialize => run_materialize(row, b),
        Call::Remaining => {
            let left = b.remaining();
            done([left.values.0 as u64, left.payload_bytes.0 as u64, 0])
        }
        Call::IsExceeded => done([u64::from(is_exceeded(*b)), 0, 0]),
        Call::NewLimits => run_limits(row),
    }
}
