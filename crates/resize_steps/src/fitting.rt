// Fitting what is left into the new total: its bytes, and their places.
ghost use Rattle.std.specs.Prelude.{◌≡◌, length};
ghost use Rattle.table.specs.Layout.{entries_at};
ghost use Rattle.table.specs.Parts.{entries_of, templates_of};
ghost use Rattle.table.specs.Table.{entries_from};
ghost use Rattle.table_entries.specs.Pack.{HoldsEntries};
ghost use Rattle.table_entries.specs.Sums.{lens_sum};
ghost use Rattle.pending_calls.specs.Removal.{RowsWithin};
ghost use Rattle.resize_steps.specs.Fit.{total_skips, FitsTotal, FitsPlaces};

use config::{ENTRY_WORDS, RECORD_WORDS};
use pending_calls::{Removed, remove, stay_all};
use table::{LABELS, entries_in, records_in};
use table_entries::{last_end, pack_bodies, sums_by_label};
use table_records::{evictions_of, skip_records};

// What is to be skipped: all of the least recent templates, until the others' bytes are at most `room`.
// `evictions_by_sizes` of offer_plan counts so too: the only crate below both that has all it takes is one of laws.
fn skip_total(
    entries: &[[u64; ENTRY_WORDS]],
    records: &[[u64; RECORD_WORDS]],
    total: u64,
    room: u64,
    skip: &mut [u32; LABELS],
)
    requires { total ≡ lens_sum (entries_of entries.now) }
    ensures { skip.new ≡ total_skips room (templates_of records.now) (entries_of entries.now)
        skip.old }
{
    let mut sizes = [0u32; LABELS];
    sums_by_label(entries, |entry| Some(entry.len), &mut sizes);
    let evicted = evictions_of(records, room, total, &sizes);
    skip_records(&records[..evicted], skip);
}

// Of what a removal left, removes least recent templates until the bytes of the others are at most `room`.
// The words and a place, no parts: `as_chunks_mut` says nothing of what the words end as.
#[tactic(auto, using(crate::proofs::Steps::fit_total_lem))]
pub fn fit_total(words: &mut [u64], from: usize, left: Removed, room: u64) -> Removed
    requires rows_value { RowsWithin from left.records left.entries (length words.old) }
    requires bytes_value { left.bytes ≡ lens_sum (entries_from words.old entries_at left.entries) }
    ensures { FitsTotal room from left.records left.entries words.old words.new result }
{
    let mut skip = [0u32; LABELS];
    skip_total(
        entries_in(words, left.entries),
        records_in(words, from, left.records),
        left.bytes,
        room,
        &mut skip,
    );
    remove(
        words,
        from,
        left.records,
        left.entries,
        stay_all(),
        &mut skip,
        None,
    )
}

// Moves the bodies together where they end past `room`; else no body moves.
// The words and how many entries, no parts: `as_chunks_mut` says nothing of what the words end as.
pub fn fit_places(words: &mut [u64], bytes: &mut [u8], entries: usize, room: u64)
    requires { HoldsEntries entries words.old (length bytes.old) }
    ensures { FitsPlaces room entries words.old bytes.old words.new
        bytes.new }
{
    if last_end(entries_in(words, entries)) <= room {
        return;
    }
    pack_bodies(words, bytes, entries);
}
