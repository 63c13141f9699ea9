// Removing bodies, once it is decided which.
// Both areas are given, also where the words alone are read: what is asked is that the two hold a cache. They are two
// parameters, as some calls change the words alone.
ghost use Rattle.std.specs.Prelude.{◌≡◌, ◌+◌, ◌*◌, ◌≤◌, length, replicate};
ghost use Rattle.config.specs.Limits.{record_words};
ghost use Rattle.table.specs.Layout.{entries_at};
ghost use Rattle.table.specs.Reads.{label_or_none};
ghost use Rattle.table.specs.Table.{entries_from, records};
ghost use Rattle.table_entries.specs.Sweep.{swept};
ghost use Rattle.pending_flows.specs.Header.{HoldsCache};
ghost use Rattle.pending_calls.specs.Removal.{everything, unexpired, ClosesApart, SkipsWhole, LiveTold};
ghost use Rattle.pending_calls.specs.Removal.{RowsWithin, Removes, RemovesFrom};

use pending_flows::Header;
use table::{LABELS, entries_in, label_number, records_at, records_in};
use table_closing::close;
use table_entries::{Kept, StayTest, sums_by_label, sweep};
use table_promotion::take_record;
use table_records::{count_whole, set_sum, sum_of};

// What a removal leaves: entries, their lengths together, records, and the bodies of the label that was set apart.
#[derive(Clone, Copy)]
pub struct Removed {
    pub entries: usize,
    pub bytes: u64,
    pub records: usize,
    pub apart: u32,
}

// The test by which the expired bodies of a label go, and no others.
pub fn label_test(ttl: Option<u64>, clock: u64, label: u64) -> StayTest
    ensures { result ≡ unexpired ttl clock label }
{
    StayTest::by_age(ttl, clock, Some(label))
}

// The test by which every body stays: nothing expires without a TTL.
pub fn stay_all() -> StayTest
    ensures { result ≡ everything }
{
    label_test(None, 0, LABELS as u64)
}

// Closes the records by how many bodies each label has kept; the record of the label `apart`, if one is told, goes, and
// what it kept is told.
// The words and a place, no parts: `as_chunks_mut` says nothing of what the words end as.
// No `RowsWithin` here: it speaks of the entries too, which are swept by now.
#[tactic(auto, using(crate::proofs::Removals::closed_apart))]
fn close_apart(
    words: &mut [u64],
    from: usize,
    records: usize,
    left: Kept,
    kept: &mut [u32; LABELS],
    apart: Option<u64>,
) -> Removed
    requires { (from + record_words * records ≤ length words.old) × (records ≤ 1024) }
    ensures { ClosesApart from records (label_or_none apart) left kept.old words.old words.new result }
{
    let label = label_number(apart);
    let bodies = sum_of(kept, label);
    set_sum(kept, label, 0);
    let remain = close(words, from, records, kept);
    Removed {
        entries: left.entries,
        bytes: left.bytes,
        records: remain,
        apart: bodies,
    }
}

// Sweeps the entries and closes the records; the record of the label `apart` goes though its bodies stay.
// The words and a place, no parts: `as_chunks_mut` says nothing of what the words end as.
pub fn remove(
    words: &mut [u64],
    from: usize,
    records: usize,
    entries: usize,
    test: StayTest,
    skip: &mut [u32; LABELS],
    apart: Option<u64>,
) -> Removed
    requires { RowsWithin from records entries (length words.old) }
    ensures { Removes test from records entries (label_or_none apart) skip.old words.old words.new
        result }
{
    let left = sweep(words, entries, test, skip);
    let mut kept = [0u32; LABELS];
    let stayed = entries_in(words, left.entries);
    sums_by_label(stayed, |_| Some(1), &mut kept);
    close_apart(words, from, records, left, &mut kept, apart)
}

// The removal where of each record all bodies are skipped or none, and every other body stays; but where it is told how
// many bodies of the label `apart` stay, its expired ones go. What each label keeps is known before the sweep, and
// the entries that are left are not counted.
pub fn remove_whole(
    words: &mut [u64],
    bytes: &[u8],
    header: Header,
    test: StayTest,
    skip: &mut [u32; LABELS],
    apart: Option<u64>,
    live: Option<usize>,
) -> Removed
    requires header_value { HoldsCache header words.old (length bytes.now) }
    requires skip_value { SkipsWhole skip.old (records words.old) }
    requires live_value { LiveTold live test (label_or_none apart) (swept test skip.old (entries_from words.old entries_at
        header.figures.entries)) }
    ensures { RemovesFrom test (label_or_none apart) skip.old words.old words.new result }
{
    let Header { limits, figures } = header;
    let from = records_at(limits);
    let records = (figures.templates + figures.chance) as usize;
    let mut kept = [0u32; LABELS];
    // before the sweep, which spends what is to be skipped
    count_whole(records_in(words, from, records), skip, &mut kept);
    if let Some(bodies) = live {
        set_sum(&mut kept, label_number(apart), bodies as u32);
    }
    let left = sweep(words, figures.entries as usize, test, skip);
    close_apart(words, from, records, left, &mut kept, apart)
}

// The removal where every body stays and none is handed out: no entry is looked at, and of the records only the one of
// the label `apart` goes.
pub fn remove_none(words: &mut [u64], bytes: &[u8], header: Header, apart: Option<u64>) -> Removed
    requires header_value { HoldsCache header words.old (length bytes.now) }
    requires chance_value { header.figures.chance ≡ 0 }
    ensures { RemovesFrom everything (label_or_none apart) (replicate 1024 0) words.old words.new result }
{
    let Header { limits, figures } = header;
    let from = records_at(limits);
    let records = (figures.templates + figures.chance) as usize;
    let taken = take_record(words, from, records, label_number(apart));
    Removed {
        entries: figures.entries as usize,
        bytes: figures.total,
        records: taken.records,
        apart: taken.bodies,
    }
}
