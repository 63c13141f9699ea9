// The pass over the entries in the test behind number 28: it is linear, and watches the entries that a
// query or an offer is about.
#![tactic(auto)]

ghost use Rattle.std.specs.Prelude.{◌≡◌, ◌<◌, ◌≤◌};
ghost use Rattle.table.specs.Parts.{entries_of};
ghost use Rattle.table.specs.Passes.{held_len};
ghost use Rattle.table_watch.specs.Watch.{seen_by, judged};
ghost use Rattle.table_entry_test.specs.EntriesPass.{entry_fits, one_less, entries_pass};

use config::{ENTRY_WORDS, MAX_BYTES, PendingFlowsConfig};
use table::{Damaged, Entry, entry_of};
use table_watch::{LabelSeen, Watch, pass_entry};

// Whether a body is within the entry size, and begins at `end` or above, within the longest area. Bodies follow one
// another, so where they end is tested of the last one alone.
#[tactic(auto, unfolding(crate::specs::EntriesPass::entry_fits))]
fn entry_fits(entry: Entry, max_size: u64, end: u64) -> bool
    ensures { result ≡ entry_fits max_size end entry }
{
    entry.len <= max_size && end <= entry.place && entry.place <= MAX_BYTES as u64
}

// What an entry adds to the total: nothing where it is handed out.
#[tactic(auto, unfolding(table::specs::Passes::held_len))]
fn held_len(entry: Entry, out: u64) -> u64
    ensures { result ≡ held_len out entry }
{
    if entry.label == out { 0 } else { entry.len }
}

// One less than what a label is allowed; below 0 it wraps, so that it can be stored before it is tested, which compiles
// to one instruction on the word.
#[tactic(auto, unfolding(crate::specs::EntriesPass::one_less))]
fn one_less(allowed: u32) -> u32
    ensures { result ≡ one_less allowed }
{
    allowed.wrapping_sub(1)
}

// The pass over the entries: each takes one of its label's allowance, bodies follow one another, and the last one ends
// within the total. What is watched is seen on the way. The last two tests are two for speed: as one, the loop is
// compiled to other places, and of those every second takes a tenth longer.
pub fn entries_pass(
    entries: &[[u64; ENTRY_WORDS]],
    allow: &mut [u32],
    limits: PendingFlowsConfig,
    out: u64,
    total: u64,
    watch: Watch,
) -> Result<LabelSeen, Damaged>
    requires max_size_bound { limits.max_entry_size_bytes ≤ 67108864 }
    ensures { result ≡ judged (entries_pass limits.max_entry_size_bytes limits.max_total_bytes out total 0
        allow.old 0 (entries_of entries.now)) (seen_by watch (entries_of entries.now)) }
{
    let max_size = limits.max_entry_size_bytes as u64;
    let mut end: u64 = 0;
    let mut held: u64 = 0;
    let mut seen = LabelSeen {
        live: 0,
        found: None,
    };
    for words in entries {
        let entry = entry_of(words);
        let label = entry.label as usize;
        let allowed = *allow.get(label).ok_or(Damaged)?;
        allow[label] = one_less(allowed);
        if allowed == 0 || !entry_fits(entry, max_size, end) {
            return Err(Damaged);
        }
        end = entry.place + entry.len;
        held += held_len(entry, out);
        seen = pass_entry(words, entry, seen, watch);
    }
    if (limits.max_total_bytes as u64) < end {
        return Err(Damaged);
    }
    if held != total {
        return Err(Damaged);
    }
    Ok(seen)
}
