// A row of the recorded list (oracle/README.md, "Budget"): its call, and the preflight and the report among its arguments.
use output_preflight::{FieldValues, PayloadBytes, PendingOutputPreflight, Refusal};

// A call of a list.
#[derive(Clone, Copy)]
pub enum Call {
    New,
    Reset,
    SetLimits,
    Reserve,
    Rollback,
    TakeExceeded,
    ValidateFullBudget,
    ValidateRemaining,
    Materialize,
    Remaining,
    IsExceeded,
    NewLimits,
}

impl From<u64> for Call {
    fn from(number: u64) -> Call {
        match number {
            0 => Call::New,
            1 => Call::Reset,
            2 => Call::SetLimits,
            3 => Call::Reserve,
            4 => Call::Rollback,
            5 => Call::TakeExceeded,
            6 => Call::ValidateFullBudget,
            7 => Call::ValidateRemaining,
            8 => Call::Materialize,
            9 => Call::Remaining,
            11 => Call::NewLimits,
            // 10, and a number that no call has
            _ => Call::IsExceeded,
        }
    }
}

// A cost of a row.
fn cost_of(values: u64, payload: u64, remainder: u64) -> PendingOutputPreflight {
    PendingOutputPreflight {
        // A count by its type's name, as in budget_words: by `.into()` no line would say which of the two it is.
        field_values: FieldValues(values as usize),
        field_payload_bytes: PayloadBytes(payload as usize),
        remainder_len: remainder as usize,
    }
}

// A preflight of a row: 0 with a cost, or the number of a refusal.
pub fn preflight_of(row: &[u64; 19]) -> Result<PendingOutputPreflight, Refusal> {
    match row[1] {
        0 => Ok(cost_of(row[2], row[3], row[4])),
        9 => Err(Refusal::ZeroRecordLimit),
        12 => Err(Refusal::Oversized),
        // 7, and a number that no preflight has
        _ => Err(Refusal::Invalid),
    }
}

// A report of a row: 0 failure, 1 the preflight's figures, 2 to 4 one of them one more, 5 to 7 one less.
pub fn report_of(row: &[u64; 19]) -> Option<PendingOutputPreflight> {
    let (values, payload, remainder) = (row[2], row[3], row[4]);
    Some(match row[5] {
        0 => return None,
        2 => cost_of(values.saturating_add(1), payload, remainder),
        3 => cost_of(values, payload.saturating_add(1), remainder),
        4 => cost_of(values, payload, remainder.saturating_add(1)),
        5 => cost_of(values.saturating_sub(1), payload, remainder),
        6 => cost_of(values, payload.saturating_sub(1), remainder),
        7 => cost_of(values, payload, remainder.saturating_sub(1)),
        // 1, and a number that no report has
        _ => cost_of(values, payload, remainder),
    })
}
