// The decoded-output budget of one message: two counts, each with its limit, and the first excess.
#![tactic(auto)]

ghost use Rattle.std.specs.Prelude.{◌≡◌, ◌-◌};
ghost use Rattle.output_budget.specs.Budget.{limit_of, number_of, opened, use_of, remaining_of, grown, SumsWithin};

use output_preflight::{FieldValues, PayloadBytes};

// Which limit an excess is of.
#[derive(Clone, Copy, Debug, PartialEq, Eq)]
pub enum DecodedOutputLimit {
    FieldValues,
    FieldPayloadBytes,
}

// A reservation that would have passed a limit: which one, its figure, and the sum that was attempted.
#[derive(Clone, Copy, Debug, PartialEq, Eq)]
pub struct OutputBudgetExceeded {
    pub limit: DecodedOutputLimit,
    pub configured: usize,
    pub attempted: usize,
}

// A rollback to a count above the one in use.
#[derive(Clone, Copy, Debug, PartialEq, Eq)]
pub struct AboveUse;

// Both limits, both counts in use, and the first excess since the budget was opened or rolled back. The use may be
// above a limit.
#[derive(Clone, Copy, Debug, PartialEq, Eq)]
pub struct DecodedOutputBudget {
    pub max_values: FieldValues,
    pub max_payload_bytes: PayloadBytes,
    pub used_values: FieldValues,
    pub used_payload_bytes: PayloadBytes,
    pub exceeded: Option<OutputBudgetExceeded>,
}

// A pair of counts: those in use, a checkpoint of them, or what remains. Calls are given the two apart, as C gives them
// and as each is tested by itself.
#[derive(Clone, Copy, Debug, PartialEq, Eq)]
pub struct OutputCounts {
    pub values: FieldValues,
    pub payload_bytes: PayloadBytes,
}

// A limit as a value of an answer.
impl From<DecodedOutputLimit> for u64 {
    ghost from_gives = { λ limit word. word ≡ limit_of limit };

    fn from(limit: DecodedOutputLimit) -> u64 {
        match limit {
            DecodedOutputLimit::FieldValues => 1,
            DecodedOutputLimit::FieldPayloadBytes => 2,
        }
    }
}

// Document 01's number of passing a limit.
impl From<OutputBudgetExceeded> for u32 {
    ghost from_gives = { λ excess number. number ≡ number_of excess.limit };

    fn from(excess: OutputBudgetExceeded) -> u32 {
        match excess.limit {
            DecodedOutputLimit::FieldValues => 23,
            DecodedOutputLimit::FieldPayloadBytes => 24,
        }
    }
}

// Document 01's number of a refused rollback.
impl From<AboveUse> for u32 {
    ghost from_gives = { λ _ number. number ≡ 26 };

    fn from(_above: AboveUse) -> u32 {
        26
    }
}

// What is left of a limit, or 0 where more than the limit is in use.
fn left(max: usize, used: usize) -> usize
    ensures { result ≡ max - used }
{
    max.saturating_sub(used)
}

impl DecodedOutputBudget {
    // Any two limits, 0 included; nothing used, nothing recorded.
    pub fn new(max_values: FieldValues, max_payload_bytes: PayloadBytes) -> Self
        ensures { result ≡ opened max_values max_payload_bytes }
    {
        DecodedOutputBudget {
            max_values,
            max_payload_bytes,
            used_values: FieldValues(0),
            used_payload_bytes: PayloadBytes(0),
            exceeded: None,
        }
    }

    // The same limits, with nothing used and nothing recorded.
    pub fn reset(&mut self)
        ensures { self.new ≡ opened self.old.max_values self.old.max_payload_bytes }
    {
        *self = DecodedOutputBudget::new(self.max_values, self.max_payload_bytes);
    }

    // Other limits, with nothing used and nothing recorded.
    pub fn set_limits(&mut self, max_values: FieldValues, max_payload_bytes: PayloadBytes)
        ensures { self.new ≡ opened max_values max_payload_bytes }
    {
        self.max_values = max_values;
        self.max_payload_bytes = max_payload_bytes;
        self.reset();
    }

    // The counts in use, to roll back to.
    pub fn checkpoint(self) -> OutputCounts
        ensures { result ≡ use_of self }
    {
        self.used()
    }

    // The counts in use.
    pub fn used(self) -> OutputCounts
        ensures { result ≡ use_of self }
    {
        OutputCounts {
            values: self.used_values,
            payload_bytes: self.used_payload_bytes,
        }
    }

    // What remains of both counts.
    pub fn remaining(self) -> OutputCounts
        ensures { result ≡ remaining_of self }
    {
        OutputCounts {
            values: FieldValues(left(self.max_values.0, self.used_values.0)),
            payload_bytes: PayloadBytes(left(self.max_payload_bytes.0, self.used_payload_bytes.0)),
        }
    }

    // The use grown by two counts, whose sums the caller has tested: `output_reserve` or `output_pending`.
    pub fn grow(&mut self, values: FieldValues, payload: PayloadBytes)
        requires { SumsWithin self.old values payload }
        ensures { self.new ≡ grown self.old values payload }
    {
        // Read whole: with `+=` on each count, which was tried, the sums' overflow stays open. They are at most the
        // limits, and of a limit that is not read the check does not know that it fits 64 bits.
        let before = *self;
        self.used_values = FieldValues(before.used_values.0 + values.0);
        self.used_payload_bytes = PayloadBytes(before.used_payload_bytes.0 + payload.0);
    }
}
