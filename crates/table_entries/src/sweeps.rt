// The sweep: entries go, the others close up in their order.
ghost use Rattle.std.specs.Prelude.{◌≡◌, ◌+◌, ◌*◌, ◌≤◌, length};
ghost use Rattle.config.specs.Limits.{entry_words};
ghost use Rattle.table.specs.Layout.{entries_at};
ghost use Rattle.table.specs.Table.{entry_at, entries_from};
ghost use Rattle.table_entries.specs.Sweep.{swept, Spends, put_entry, KeepsOnly};

use super::StayTest;
use super::stay::stays;
use config::{ENTRY_WORDS, HEADER_WORDS};
use table::{Entry, LABELS, entry_at};

// What a sweep keeps: how many entries, and their lengths together.
#[derive(Clone, Copy)]
pub struct Kept {
    pub entries: usize,
    pub bytes: u64,
}

// Takes one off what is to be skipped of a label; whether there was one. Of a label that is none there is none.
// A test of the length: of `get_mut` std does not say what the slice ends as.
#[tactic(auto, using(crate::proofs::SweepPass::spending))]
fn spend(skip: &mut [u32; LABELS], label: u64) -> bool
    ensures { Spends label skip.old skip.new result }
{
    let at = label as usize;
    if at >= skip.len() || skip[at] == 0 {
        return false;
    }
    skip[at] -= 1;
    true
}

// Stores an entry's four words from p on.
// The words and a place, no parts: `as_chunks_mut` says nothing of what the words end as.
#[tactic(auto, unfolding(crate::specs::Sweep::put_entry))]
pub fn put_entry(words: &mut [u64], p: usize, entry: Entry)
    requires { p + entry_words ≤ length words.old }
    ensures { words.new ≡ put_entry words.old p entry }
{
    words[p] = entry.label;
    words[p + 1] = entry.place;
    words[p + 2] = entry.len;
    words[p + 3] = entry.clock;
}

// Moves an entry's four words.
// Word by word: through an array of four words the array stays, and a sweep takes a quarter longer.
// The words and places, no parts: `as_chunks_mut` says nothing of what the words end as.
pub fn move_entry(words: &mut [u64], from: usize, to: usize)
    requires { (from + entry_words ≤ length words.old) × (to + entry_words ≤ length words.old) }
    ensures { words.new ≡ put_entry words.old to (entry_at words.old from) }
{
    put_entry(words, to, entry_at(words, from));
}

// Keeps of the entries those that stay and are not skipped, in order.
// The words and how many entries, no parts: `as_chunks_mut` says nothing of what the words end as.
pub fn sweep(words: &mut [u64], entries: usize, test: StayTest, skip: &mut [u32; LABELS]) -> Kept
    requires { entries_at + entry_words * entries ≤ length words.old }
    ensures { KeepsOnly (swept test skip.old (entries_from words.old entries_at entries)) entries
        words.old words.new result }
{
    let mut kept: usize = 0;
    let mut bytes: u64 = 0;
    for i in 0..entries {
        let entry = entry_at(words, HEADER_WORDS + ENTRY_WORDS * i);
        if stays(test, entry) && !spend(skip, entry.label) {
            put_entry(words, HEADER_WORDS + ENTRY_WORDS * kept, entry);
            kept += 1;
            bytes = bytes.wrapping_add(entry.len);
        }
    }
    Kept {
        entries: kept,
        bytes,
    }
}
