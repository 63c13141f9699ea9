// What is watched while the entries are tested: those of one label that are not too old are counted, and one is kept.
#![tactic(auto)]

ghost use Rattle.std.specs.Prelude.{◌≡◌, ◌+◌, ◌^◌, ◌<◌};
ghost use Rattle.table.specs.Parts.{entry_of, templates_of};
ghost use Rattle.table_watch.specs.Watch.{live_watch, watch_for, kept_of, passed_more};

use config::{ENTRY_WORDS, RECORD_WORDS};
use table::{Entry, LABELS, entry_of, label_number, label_of};

// What is looked for while a table is tested.
#[derive(Clone, Copy)]
pub enum Sought {
    Nothing,
    // the bodies of a held id that are not expired at a clock reading, to be counted
    Live { id: u64, clock: u64 },
    // the handed-out body with this number, from 0
    HandedOut(usize),
}

// What was seen of the entries that are looked for: how many there are, and the one with the number, if any.
#[derive(Clone, Copy)]
pub struct LabelSeen {
    pub live: usize,
    pub found: Option<Entry>,
}

// The entries that are watched: those of a label with a clock reading of `oldest` or later. The one with `nth` of them
// before it is kept. The label is a number also where none is watched, since the pass over the entries compares it with
// each entry's: an Option would be two comparisons.
#[derive(Clone, Copy)]
pub struct Watch {
    pub label: u64,
    pub oldest: u64,
    pub nth: usize,
}

// The watch for no entry: its label is a number that no entry has.
const NOTHING: Watch = Watch {
    label: LABELS as u64,
    oldest: 0,
    nth: 0,
};

// The watch for the entries of a label that are not expired at a clock reading. With a TTL of 0 all are, and what is
// watched for is no label.
#[tactic(auto, unfolding(crate::specs::Watch::live_watch))]
fn live_watch(label: u64, ttl: Option<u64>, clock: u64) -> Watch
    ensures { result ≡ live_watch label ttl clock }
{
    let oldest = match ttl {
        None => 0,
        Some(0) => return NOTHING,
        Some(limit) => clock.saturating_sub(limit - 1),
    };
    Watch {
        label,
        oldest,
        nth: 0,
    }
}

// The watch for what is sought, by the held records and the handed-out label.
#[tactic(auto, unfolding(crate::specs::Watch::watch_for))]
pub fn watch_for(held: &[[u64; RECORD_WORDS]], ttl: Option<u64>, out: u64, sought: Sought) -> Watch
    ensures { result ≡ watch_for (templates_of held.now) ttl out sought }
{
    match sought {
        Sought::Nothing => NOTHING,
        Sought::Live { id, clock } => {
            let label = label_number(label_of(held, id));
            live_watch(label, ttl, clock)
        }
        Sought::HandedOut(k) => Watch {
            label: out,
            oldest: 0,
            nth: k,
        },
    }
}

// The entry that is kept, when this one is passed behind `live` watched ones.
#[tactic(auto, unfolding(crate::specs::Watch::kept_of))]
fn kept_of(live: usize, nth: usize, kept: Option<Entry>, entry: Entry) -> Option<Entry>
    ensures { result ≡ kept_of live nth kept entry }
{
    if live == nth { Some(entry) } else { kept }
}

// What is seen with the entry that the words are. Its clock reading is read anew, so that this is done only where the
// label is watched.
#[tactic(auto, unfolding(crate::specs::Watch::passed_more))]
pub fn pass_entry(
    words: &[u64; ENTRY_WORDS],
    entry: Entry,
    seen: LabelSeen,
    watch: Watch,
) -> LabelSeen
    requires entry_read { entry ≡ entry_of words.now }
    requires live_bound { seen.live + 1 < 2 ^ 64 }
    ensures { result ≡ passed_more watch entry seen }
{
    if watch.label != entry.label || entry_of(words).clock < watch.oldest {
        return seen;
    }
    LabelSeen {
        live: seen.live + 1,
        found: kept_of(seen.live, watch.nth, seen.found, entry_of(words)),
    }
}
