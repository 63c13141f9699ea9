// What is chosen by looking at the records alone, with sums by label beside them.
ghost use Rattle.std.specs.Prelude.{◌≡◌, ◌-◌, ◌<◌, eqb, length};
ghost use Rattle.std.specs.List.{position};
ghost use Rattle.table.specs.Parts.{templates_of};
ghost use Rattle.table_records.specs.Choose.{skipping, skipping_over, evictions_of, live_records, label_of_first_live};
ghost use Rattle.table_records.specs.Choose.{greatest_label, last_label, RoomForLabels};
ghost use Rattle.table_records.specs.Choose.{FreeLabel};

use super::sums::{set_sum, sum_of};
use config::{MAX_BODIES, RECORD_WORDS};
use table::{FEW_LABELS, LABELS, template_of};

// As many bodies as any template can have.
pub const SKIP_ALL: u32 = MAX_BODIES as u32;

const LAST_LABEL: u64 = LABELS as u64 - 1;

const LAST_OF_FEW: u64 = FEW_LABELS as u64 - 1;

// Has all bodies of the records skipped; a label past the end of the slice is left out.
#[tactic(auto, using(crate::proofs::Chosen::setting))]
pub fn skip_records(records: &[[u64; RECORD_WORDS]], skip: &mut [u32])
    ensures { skip.new ≡ skipping skip.old (templates_of records.now) }
{
    for words in records {
        set_sum(skip, template_of(words).label, SKIP_ALL);
    }
}

// Has the bodies beyond the cap of each record skipped.
#[tactic(auto, using(crate::proofs::Chosen::setting))]
pub fn skip_over(
    records: &[[u64; RECORD_WORDS]],
    cap: usize,
    counts: &[u32; LABELS],
    skip: &mut [u32; LABELS],
)
    ensures { skip.new ≡ skipping_over cap counts.now skip.old (templates_of records.now) }
{
    for words in records {
        let label = template_of(words).label;
        let over = (sum_of(counts, label) as u64).saturating_sub(cap as u64);
        set_sum(skip, label, over as u32);
    }
}

// How many least recent templates go until the total is at most `room`.
#[tactic(auto, using(crate::proofs::Chosen::evicting))]
pub fn evictions_of(
    records: &[[u64; RECORD_WORDS]],
    room: u64,
    total: u64,
    sizes: &[u32; LABELS],
) -> usize
    ensures { result ≡ evictions_of room sizes.now total (templates_of records.now) }
{
    let mut held = total;
    for (evicted, words) in records.iter().enumerate() {
        if held <= room {
            return evicted;
        }
        let label = template_of(words).label;
        held = held.saturating_sub(sum_of(sizes, label) as u64);
    }
    records.len()
}

// How many of the records have live bodies.
pub fn live_records(records: &[[u64; RECORD_WORDS]], live: &[u32; LABELS]) -> usize
    ensures { result ≡ live_records live.now (templates_of records.now) }
{
    records
        .iter()
        .map(|words| template_of(words))
        .filter(|template| 0 < sum_of(live, template.label))
        .count()
}

// The label of the first record with live bodies.
pub fn first_live(records: &[[u64; RECORD_WORDS]], live: &[u32; LABELS]) -> Option<u64>
    ensures { result ≡ label_of_first_live live.now (templates_of records.now) }
{
    records
        .iter()
        .map(|words| template_of(words).label)
        .find(|label| 0 < sum_of(live, *label))
}

// The first label that has 0.
fn first_free(used: &[u32]) -> Option<usize>
    ensures { result ≡ position (λ sum. eqb sum 0) used.now }
{
    used.iter().position(|sum| *sum == 0)
}

// The greatest label of the records, or 0: with no record, any label is free.
fn greatest_label(records: &[[u64; RECORD_WORDS]]) -> u64
    ensures { result ≡ greatest_label (templates_of records.now) }
{
    records
        .iter()
        .map(|words| template_of(words))
        .fold(0, |greatest: u64, template| greatest.max(template.label))
}

// The last label that is taken as the one behind the greatest: few records keep to few labels.
#[tactic(auto, unfolding(crate::specs::Choose::last_label))]
fn last_label(count: usize) -> u64
    ensures { result ≡ last_label count }
{
    if count < FEW_LABELS {
        LAST_OF_FEW
    } else {
        LAST_LABEL
    }
}

// The least label that no record has, found in room for more labels than there are records.
fn least_unused(records: &[[u64; RECORD_WORDS]], used: &mut [u32]) -> u64
    requires { RoomForLabels (length records.now) used.old }
    ensures { FreeLabel (templates_of records.now) result }
{
    skip_records(records, used);
    let Some(label) = first_free(used) else {
        unreachable!()
    };
    label as u64
}

// A label that no record has: the one behind the greatest, up to the last that is taken so, or else the least.
pub fn free_label(records: &[[u64; RECORD_WORDS]]) -> u64
    requires { length records.now < 1024 }
    ensures { FreeLabel (templates_of records.now) result }
{
    let count = records.len();
    let greatest = greatest_label(records);
    if greatest < last_label(count) {
        return greatest + 1;
    }
    if count < FEW_LABELS {
        let mut few = [0u32; FEW_LABELS];
        return least_unused(records, &mut few);
    }
    let mut used = [0u32; LABELS];
    least_unused(records, &mut used)
}
