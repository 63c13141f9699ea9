// The preflight of a body in one of the three readings, for C.
#![tactic(auto)]

ghost use Rattle.std.specs.Prelude.{◌≡◌, [], ◌∷◌};
ghost use Rattle.output_preflight.specs.Preflight.{answer_of};
ghost use Rattle.export_framing.specs.Framing.{Exported, Preflights};

use answer_numbers::write_values;
use output_preflight::{PendingOutputPreflight, Refusal};
use wire::Reading;

// Field values, payload bytes and remainder as words.
// An array, and no `From`: neither type is of this crate, and the crate of the figures knows no words.
fn cost_words(measured: PendingOutputPreflight) -> [u64; 3]
    ensures { result ≡ measured.field_values.0 ∷ measured.field_payload_bytes.0 ∷ measured.remainder_len ∷ [] }
{
    let values = measured.field_values.0;
    let payload = measured.field_payload_bytes.0;
    let remainder = measured.remainder_len;
    [values as u64, payload as u64, remainder as u64]
}

// Answers the number, and writes field values, payload bytes and remainder on success.
fn export(answer: Result<PendingOutputPreflight, Refusal>, cost: &mut [u64; 3]) -> u32
    ensures { Exported (answer_of answer) result cost.old cost.new }
{
    write_values(answer, cost, cost_words)
}

// The preflight of a body: 0 with the cost written, or 9, 12 or 7 with the words as they were. One for all three
// readings, so that the answer crosses without being stored.
pub fn preflight(
    body: &[u8],
    widths: &[u16],
    reading: Reading,
    max_records: usize,
    cost: &mut [u64; 3],
) -> u32
    ensures { Preflights body.now widths.now reading max_records result
        cost.old cost.new }
{
    export(
        output_preflight::preflight(body, widths, reading, max_records),
        cost,
    )
}
