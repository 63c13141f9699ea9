// Removing one template whole, or its expired bodies, without an array (pending_flows.rs).
// Both areas are given, also where the words alone are read: what is asked is that the two hold a cache. They are two
// parameters, as some calls change the words alone.
#![tactic(auto)]

mod expired;
mod packing;

ghost use Rattle.std.specs.Prelude.{◌+◌, ◌*◌, ◌≤◌, length, set, replicate};
ghost use Rattle.config.specs.Limits.{record_words};
ghost use Rattle.table.specs.Reads.{label_or_none};
ghost use Rattle.table_records.specs.Choose.{skip_all};
ghost use Rattle.pending_flows.specs.Header.{HoldsCache};
ghost use Rattle.pending_calls.specs.Removal.{everything, RemovesFrom};
ghost use Rattle.template_removal.specs.Taking.{TakesBoth};

use entry_sweeps::sweep_staying;
pub use expired::remove_expired_of;
pub use packing::remove_packing;
use pending_calls::{Removed, label_test};
use pending_flows::Header;
use table::{label_number, records_at};
use table_entries::Kept;
use table_promotion::take_record;

// Takes off the record of a label, and then that of the label `apart`, if one is told. Tells the records that are
// left and the bodies of `apart`, beside the sweep's figures.
// The words and a place, no parts: `as_chunks_mut` says nothing of what the words end as.
fn take_both(
    words: &mut [u64],
    from: usize,
    records: usize,
    left: Kept,
    label: u64,
    apart: Option<u64>,
) -> Removed
    requires { from + record_words * records ≤ length words.old }
    ensures { TakesBoth label (label_or_none apart) from records left words.old words.new result }
{
    let first = take_record(words, from, records, label);
    let second = take_record(words, from, first.records, label_number(apart));
    Removed {
        entries: left.entries,
        bytes: left.bytes,
        records: second.records,
        apart: second.bodies,
    }
}

// Removes the template of a label: its entries and its record. The record of the label `apart` goes though its bodies
// stay.
pub fn remove_template(
    words: &mut [u64],
    bytes: &[u8],
    header: Header,
    label: u64,
    apart: Option<u64>,
) -> Removed
    requires { HoldsCache header words.old (length bytes.now) }
    ensures { RemovesFrom everything (label_or_none apart) (set (replicate 1024 0) label skip_all) words.old
        words.new result }
{
    let Header { limits, figures } = header;
    let from = records_at(limits);
    let records = (figures.templates + figures.chance) as usize;
    // by a TTL of 0 every body of the label is expired
    let test = label_test(Some(0), 0, label);
    let left = sweep_staying(words, figures.entries as usize, test);
    take_both(words, from, records, left, label, apart)
}
