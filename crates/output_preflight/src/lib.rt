// The framing of a queued data-set body, and what decoding it would cost, before it is decoded (output_budget.rs).
#![tactic(auto)]

ghost use Rattle.std.specs.Prelude.{◌≡◌, ◌≤◌, ◌<◌};
ghost use Rattle.wire.specs.Size.{least_size};
ghost use Rattle.output_scan.specs.Scan.{scan_of};
ghost use Rattle.output_preflight.specs.Preflight.{number_of, answer_of, figures_of, cost_of, preflight_of};

use output_fields::VariableFraming;
use output_scan::{Scanned, scan_fixed_body};
use output_scan_variable::scan_variable_body;
use wire::Reading;

// A count of decoded field values.
#[derive(Clone, Copy, Debug, PartialEq, Eq, PartialOrd, Ord)]
pub struct FieldValues(pub usize);

// A count of decoded payload bytes, without length prefixes.
#[derive(Clone, Copy, Debug, PartialEq, Eq, PartialOrd, Ord)]
pub struct PayloadBytes(pub usize);

// What decoding a body costs, in both counts, and how many bytes it leaves.
#[derive(Clone, Copy, Debug, PartialEq, Eq)]
pub struct PendingOutputPreflight {
    pub field_values: FieldValues,
    pub field_payload_bytes: PayloadBytes,
    pub remainder_len: usize,
}

// Why a preflight gives no cost.
#[derive(Clone, Copy, Debug, PartialEq, Eq)]
pub enum Refusal {
    // the record limit is 0
    ZeroRecordLimit,
    // the body is over 65,531 bytes, or there are over 65,535 widths
    Oversized,
    // the body has no valid framing
    Invalid,
}

// Document 01's number of a refusal.
impl From<Refusal> for u32 {
    ghost from_gives = { λ refusal number. number ≡ number_of refusal };

    fn from(refusal: Refusal) -> u32 {
        match refusal {
            Refusal::ZeroRecordLimit => 9,
            Refusal::Oversized => 12,
            Refusal::Invalid => 7,
        }
    }
}

// An answer in numbers: document 01's number, 0 for a cost, and the values, which are 0 in a refusal.
#[derive(Clone, Copy, Debug, PartialEq, Eq)]
pub struct Figures {
    pub number: u64,
    pub values: u64,
    pub payload: u64,
    pub remainder: u64,
}

// The numbers of an answer.
impl From<Result<PendingOutputPreflight, Refusal>> for Figures {
    ghost from_gives = { λ answer figures. figures ≡ figures_of (answer_of answer) };

    fn from(answer: Result<PendingOutputPreflight, Refusal>) -> Self {
        match answer {
            Ok(cost) => Self {
                number: 0,
                values: cost.field_values.0 as u64,
                payload: cost.field_payload_bytes.0 as u64,
                remainder: cost.remainder_len as u64,
            },
            Err(refusal) => Self {
                number: u32::from(refusal) as u64,
                values: 0,
                payload: 0,
                remainder: 0,
            },
        }
    }
}

// The longest body of a data set: a 16-bit length, less the 4-byte header.
const MAX_BODY_LEN: usize = 65531;

// The most fields of a template: a 16-bit count.
const MAX_WIDTHS: usize = 65535;

// The whole records of a body. `least` is the least size of a record, above 0.
fn scan_body(
    body: &[u8],
    widths: &[u16],
    least: usize,
    reading: Reading,
    max_records: usize,
) -> Scanned
    requires { (least ≡ least_size widths.now reading) × (0 < least) }
    ensures { result ≡ scan_of body.now widths.now reading max_records }
{
    match reading {
        Reading::V9Fixed | Reading::IpfixFixed => scan_fixed_body(body.len(), least, max_records),
        Reading::IpfixVariable => {
            let framing = VariableFraming {
                widths,
                least,
                max_records,
            };
            scan_variable_body(body, framing)
        }
    }
}

// A scan's cost, where the body is complete: `fields` fields a record.
fn cost_of(
    scanned: Scanned,
    fields: usize,
    least: usize,
    reading: Reading,
) -> Result<PendingOutputPreflight, Refusal>
    requires { (fields ≤ 65535) × (scanned.records ≤ 65531) }
    ensures { answer_of result ≡ cost_of scanned fields least reading }
{
    let Scanned {
        records,
        payload,
        remainder,
    } = scanned;
    if !wire::record_body_is_complete(records, remainder, least, reading) {
        return Err(Refusal::Invalid);
    }
    Ok(PendingOutputPreflight {
        field_values: FieldValues(records * fields),
        field_payload_bytes: PayloadBytes(payload),
        remainder_len: remainder,
    })
}

// The cost of decoding a body, or why there is none: at most `max_records` records are counted.
#[tactic(auto, using(output_scan::proofs::Records::scanned_few, crate::proofs::Costs::cost_by_scan), unfolding(crate::specs::Preflight::preflight_of))]
pub fn preflight(
    body: &[u8],
    widths: &[u16],
    reading: Reading,
    max_records: usize,
) -> Result<PendingOutputPreflight, Refusal>
    ensures { answer_of result ≡ preflight_of body.now widths.now reading max_records }
{
    if max_records == 0 {
        return Err(Refusal::ZeroRecordLimit);
    }
    if body.len() > MAX_BODY_LEN || widths.len() > MAX_WIDTHS {
        return Err(Refusal::Oversized);
    }
    let least = wire::minimum_record_size(widths, reading);
    if least == 0 {
        return Err(Refusal::Invalid);
    }
    let scanned = scan_body(body, widths, least, reading, max_records);
    cost_of(scanned, widths.len(), least, reading)
}
