// Removing the expired bodies of one label with its record, without an array.
// Both areas are given, also where the words alone are read: what is asked is that the two hold a cache. They are two
// parameters, as some calls change the words alone.
ghost use Rattle.std.specs.Prelude.{length, replicate};
ghost use Rattle.pending_flows.specs.Header.{HoldsCache};
ghost use Rattle.pending_calls.specs.Removal.{unexpired, RemovesFrom};

use entry_sweeps::sweep_staying;
use pending_calls::{Removed, label_test};
use pending_flows::Header;
use table::records_at;
use table_promotion::take_record;

// Removes the expired bodies of a label. Its record goes though other bodies of it may stay: how many, is what it
// counted less what went.
pub fn remove_expired_of(
    words: &mut [u64],
    bytes: &[u8],
    header: Header,
    clock: u64,
    label: u64,
) -> Removed
    requires { HoldsCache header words.old (length bytes.now) }
    ensures { RemovesFrom (unexpired header.limits.ttl clock label) label (replicate 1024 0) words.old
        words.new result }
{
    let Header { limits, figures } = header;
    let from = records_at(limits);
    let records = (figures.templates + figures.chance) as usize;
    let entries = figures.entries as usize;
    let ttl = limits.ttl;
    let test = label_test(ttl, clock, label);
    let left = sweep_staying(words, entries, test);
    let taken = take_record(words, from, records, label);
    let went = (entries - left.entries) as u32;
    let rest = taken.bodies - went;
    Removed {
        entries: left.entries,
        bytes: left.bytes,
        records: taken.records,
        apart: rest,
    }
}
