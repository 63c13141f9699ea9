// The sweep by a test on each entry alone: those that fail go, the others close up in their order.
ghost use Rattle.std.specs.Prelude.{◌+◌, ◌*◌, ◌≤◌, length};
ghost use Rattle.config.specs.Limits.{entry_words};
ghost use Rattle.table.specs.Layout.{entries_at};
ghost use Rattle.table.specs.Table.{entries_from};
ghost use Rattle.table_entries.specs.Stays.{stays};
ghost use Rattle.table_entries.specs.Sweep.{KeepsOnly};
ghost use Rattle.entry_sweeps.specs.KeptBy.{kept_by};

use config::{ENTRY_WORDS, HEADER_WORDS};
use table::entry_at;
use table_entries::{Kept, StayTest, move_entry, stays};

// Keeps of the entries those that stay by themselves, in order.
// Where the next one goes is counted on: worked out of `kept`, it is an instruction more an entry.
// No `sweep` with nothing to skip: in a trial one loop for both slowed one of the two (docs/DECISIONS.md).
// The words and how many entries, no parts: `as_chunks_mut` says nothing of what the words end as.
pub fn sweep_staying(words: &mut [u64], entries: usize, test: StayTest) -> Kept
    requires { entries_at + entry_words * entries ≤ length words.old }
    ensures { KeepsOnly (kept_by (stays test) (entries_from words.old entries_at entries)) entries
        words.old words.new result }
{
    let mut kept: usize = 0;
    let mut bytes: u64 = 0;
    let mut to = HEADER_WORDS;
    for i in 0..entries {
        let from = HEADER_WORDS + ENTRY_WORDS * i;
        let entry = entry_at(words, from);
        if stays(test, entry) {
            move_entry(words, from, to);
            kept += 1;
            bytes = bytes.wrapping_add(entry.len);
            to += ENTRY_WORDS;
        }
    }
    Kept {
        entries: kept,
        bytes,
    }
}
