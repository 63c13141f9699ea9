// How many least recent templates an offer evicts for its bytes: step 2.
// Both areas are given, also where the words alone are read: what is asked is that the two hold a cache. They are two
// parameters, as some calls change the words alone.
ghost use Rattle.std.specs.Prelude.{None, true, ◌≡◌, ◌≤◌, leb, length, replicate};
ghost use Rattle.table.specs.Table.{table_of};
ghost use Rattle.table.specs.Parts.{entries_of, templates_of};
ghost use Rattle.table_entries.specs.Sums.{summed};
ghost use Rattle.table_records.specs.Choose.{evictions_of};
ghost use Rattle.cache_model.specs.Removal.{evictions};
ghost use Rattle.pending_flows.specs.Header.{HoldsCache};
ghost use Rattle.pending_flows.specs.View.{cache_of};
ghost use Rattle.offer_plan.specs.Plan.{live_test, lens_of, first_reaches};

use config::{ENTRY_WORDS, RECORD_WORDS};
use pending_flows::Header;
use table::{LABELS, entry_of, first_label};
use table_entries::sums_by_label;
use table_records::evictions_of;

// Whether the bodies of a label have at least so many bytes, expired ones too: they go after step 2. It looks at no
// more entries than it must.
#[tactic(auto, using(crate::proofs::Reaches::all_passed))]
fn label_reaches(entries: &[[u64; ENTRY_WORDS]], label: u64, least: u64) -> bool
    ensures { result ≡ leb least (lens_of label (entries_of entries.now)) }
{
    let mut missing = least;
    for words in entries {
        let entry = entry_of(words);
        if label == entry.label {
            if missing <= entry.len {
                return true;
            }
            missing -= entry.len;
        }
    }
    missing == 0
}

// Whether the bodies of the first record have at least so many bytes.
fn first_reaches(
    entries: &[[u64; ENTRY_WORDS]],
    records: &[[u64; RECORD_WORDS]],
    least: u64,
) -> bool
    ensures { result ≡ first_reaches least (templates_of records.now) (entries_of entries.now) }
{
    first_label(records).is_some_and(|label| label_reaches(entries, label, least))
}

// How many least recent templates go until the others' bytes are at most `room`, by the bytes of each label.
// `skip_total` of resize_steps counts so too: neither crate needs the other, and the only crate below that has all
// that it takes is one of laws.
fn evictions_by_sizes(
    entries: &[[u64; ENTRY_WORDS]],
    records: &[[u64; RECORD_WORDS]],
    total: u64,
    room: u64,
) -> usize
    ensures { result ≡ evictions_of room (summed (live_test None 0) true (replicate 1024 0) (entries_of entries.now))
        total (templates_of records.now) }
{
    // expired bodies count: they go after this step
    let mut sizes = [0u32; LABELS];
    sums_by_label(entries, |entry| Some(entry.len), &mut sizes);
    evictions_of(records, room, total, &sizes)
}

// Step 2: how many least recent templates go until a body of this length fits. Where that is none or one, no
// array is needed; where the first body of the least recent template makes room, the pass over the entries ends there.
// The clause on the length: beyond the total every template goes, also one whose bodies have no bytes.
pub fn evictions_for(words: &[u64], bytes: &[u8], header: Header, len: usize) -> usize
    requires header_value { HoldsCache header words.now (length bytes.now) }
    requires len_value { len ≤ header.limits.max_total_bytes }
    ensures { result ≡ evictions header.limits.max_total_bytes len (cache_of (table_of words.now) bytes.now
        ).held }
{
    let Header { limits, figures } = header;
    let room = (limits.max_total_bytes - len) as u64;
    if figures.total <= room {
        return 0;
    }
    let entries = header.entries(words);
    let (records, _) = header.templates(words);
    if first_reaches(entries, records, figures.total - room) {
        return 1;
    }
    evictions_by_sizes(entries, records, figures.total, room)
}
