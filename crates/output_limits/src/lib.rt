// The limits of one message's decoded output.
#![tactic(auto)]

ghost use Rattle.std.specs.Prelude.{◌≡◌};
ghost use Rattle.output_limits.specs.Limits.{number_of, told_of_limits, limits_told, default_limits};
ghost use Rattle.output_budget.specs.Budget.{opened};

use output_budget::DecodedOutputBudget;
use output_preflight::{FieldValues, PayloadBytes};

// The most records of one flow set, unless configured.
pub const DEFAULT_MAX_RECORDS_PER_FLOWSET: usize = 1024;

// The most field values that one message decodes to, unless configured.
pub const DEFAULT_MAX_DECODED_FIELD_VALUES_PER_MESSAGE: usize = 65536;

// The most field payload bytes that one message decodes to, unless configured.
pub const DEFAULT_MAX_DECODED_FIELD_PAYLOAD_BYTES_PER_MESSAGE: usize = 4194304;

// The limits of one message: records of a flow set, field values and payload bytes. `new` makes none with a 0.
#[derive(Clone, Copy, Debug, PartialEq, Eq)]
pub struct DecodedOutputLimits {
    pub max_records: usize,
    pub max_field_values: FieldValues,
    pub max_field_payload_bytes: PayloadBytes,
}

// Which limit is 0.
#[derive(Clone, Copy, Debug, PartialEq, Eq)]
pub enum LimitsRefusal {
    ZeroRecords,
    ZeroFieldValues,
    ZeroPayloadBytes,
}

// Document 01's number of each refusal.
impl From<LimitsRefusal> for u32 {
    ghost from_gives = { λ refusal number. number ≡ number_of refusal };

    fn from(refusal: LimitsRefusal) -> u32 {
        match refusal {
            LimitsRefusal::ZeroRecords => 9,
            LimitsRefusal::ZeroFieldValues => 10,
            LimitsRefusal::ZeroPayloadBytes => 11,
        }
    }
}

impl DecodedOutputLimits {
    // The three limits, unless one of them is 0.
    #[tactic(auto, unfolding(crate::specs::Limits::limits_told))]
    pub fn new(
        max_records: usize,
        max_field_values: FieldValues,
        max_field_payload_bytes: PayloadBytes,
    ) -> Result<Self, LimitsRefusal>
        ensures { told_of_limits result ≡ limits_told max_records max_field_values max_field_payload_bytes }
    {
        if max_records == 0 {
            return Err(LimitsRefusal::ZeroRecords);
        }
        if max_field_values.0 == 0 {
            return Err(LimitsRefusal::ZeroFieldValues);
        }
        if max_field_payload_bytes.0 == 0 {
            return Err(LimitsRefusal::ZeroPayloadBytes);
        }
        Ok(DecodedOutputLimits {
            max_records,
            max_field_values,
            max_field_payload_bytes,
        })
    }

    // The limits of a message unless configured.
    pub fn defaults() -> Self
        ensures { result ≡ default_limits }
    {
        DecodedOutputLimits {
            max_records: DEFAULT_MAX_RECORDS_PER_FLOWSET,
            max_field_values: FieldValues(DEFAULT_MAX_DECODED_FIELD_VALUES_PER_MESSAGE),
            max_field_payload_bytes: PayloadBytes(
                DEFAULT_MAX_DECODED_FIELD_PAYLOAD_BYTES_PER_MESSAGE,
            ),
        }
    }

    // An unused budget with these limits.
    pub fn budget(self) -> DecodedOutputBudget
        ensures { result ≡ opened self.max_field_values self.max_field_payload_bytes }
    {
        DecodedOutputBudget::new(self.max_field_values, self.max_field_payload_bytes)
    }
}
