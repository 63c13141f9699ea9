// Removing what the plan of an offer removes, and packing in the same pass where it is certain that the body needs it.
#![tactic(auto)]

ghost use Rattle.std.specs.Prelude.{◌≡◌, true, ◌≤◌, length};
ghost use Rattle.table.specs.Parts.{entries_of};
ghost use Rattle.table.specs.Reads.{label_or_none};
ghost use Rattle.table.specs.WellFormed.{places_legal};
ghost use Rattle.planned_removal.specs.Planned.{PlannedAll};
ghost use Rattle.packed_removal.specs.ForBody.{EndsPast, RemovesForBody};

use config::ENTRY_WORDS;
use offer_plan::OfferPlan;
use pending_calls::Removed;
use pending_flows::Header;
use planned_removal::{alone_label, remove_planned};
use table::entry_of;
use table_entries::last_end;
use template_removal::remove_packing;

// Whether it is certain that a body of this length does not fit behind the last one without the bodies of a label.
#[tactic(auto, using(crate::proofs::ForBody::ends_told))]
fn ends_past(entries: &[[u64; ENTRY_WORDS]], label: u64, len: usize, most: usize) -> bool
    requires { (places_legal 0 most (entries_of entries.now) ≡ true) × (most ≤ 67108864) }
    ensures { result ≡ true → EndsPast label len most (entries_of entries.now) }
{
    let Some(words) = entries.last() else {
        return false;
    };
    let last = entry_of(words);
    label != last.label && most.saturating_sub(last_end(entries) as usize) < len
}

// Removes what the plan removes. Where one template goes alone, and it is certain that a body of this length does not
// fit behind the others, these are packed in the same pass; else they are left as they lie, and room is made later.
pub fn remove_for_body(
    words: &mut [u64],
    bytes: &mut [u8],
    header: Header,
    plan: OfferPlan,
    clock: u64,
    len: usize,
) -> Removed
    requires { PlannedAll header clock plan words.old (length bytes.old) }
    ensures { RemovesForBody clock plan (label_or_none plan.label) len words.old bytes.old words.new
        bytes.new result }
{
    if let Some(label) = alone_label(words, bytes, header, plan) {
        let entries = header.entries(words);
        if ends_past(entries, label, len, header.limits.max_total_bytes) {
            return remove_packing(words, bytes, header, label, plan.label);
        }
    }
    remove_planned(words, bytes, header, plan, clock, plan.label)
}
