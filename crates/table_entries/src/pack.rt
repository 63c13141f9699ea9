// Where bodies end, and moving them together.
ghost use Rattle.std.specs.Prelude.{◌≡◌, ◌+◌, ◌≤◌, length};
ghost use Rattle.table.specs.Parts.{entries_of};
ghost use Rattle.table_entries.specs.Pack.{last_end, MovesRun, ReachesTo, HoldsEntries, Packs};

use areas::move_bytes_down;
use config::{ENTRY_WORDS, HEADER_WORDS};
use table::{entry_at, entry_of};

// The word of an entry that is its body's place.
const PLACE: usize = 1;

// Where the last entry's body ends; 0 where there is none.
#[tactic(auto, using(crate::proofs::Ends::last_told))]
pub fn last_end(entries: &[[u64; ENTRY_WORDS]]) -> u64
    requires { last_end (entries_of entries.now) ≤ 18446744073709551615 }
    ensures { result ≡ last_end (entries_of entries.now) }
{
    let Some(words) = entries.last() else {
        return 0;
    };
    let last = entry_of(words);
    last.place + last.len
}

// Bodies that lie side by side and move together: where they begin, where they go, and their length.
#[derive(Clone, Copy)]
pub struct Run {
    pub from: usize,
    pub to: usize,
    pub len: usize,
}

// Moves a run; answers where it ends then.
pub fn move_run(bytes: &mut [u8], run: Run) -> usize
    requires { (run.to ≤ run.from) × (run.from + run.len ≤ length bytes.old) }
    ensures { MovesRun run bytes.old bytes.new result }
{
    move_bytes_down(bytes, run.from, run.to, run.len);
    run.to + run.len
}

// The run that a body at this place goes on with. Where it lies apart, the run is moved and the next one begins.
#[tactic(auto, using(crate::proofs::PackPass::run_moved))]
pub fn run_up_to(bytes: &mut [u8], run: Run, place: usize) -> Run
    requires to_le_from { (run.to ≤ run.from) × (run.from + run.len ≤ place) }
    requires place_in_bounds { place ≤ length bytes.old }
    ensures { ReachesTo place run bytes.old bytes.new result }
{
    if run.from + run.len == place {
        return run;
    }
    let end = move_run(bytes, run);
    Run {
        from: place,
        to: end,
        len: 0,
    }
}

// Moves the bodies together towards the front, in table order; answers where the last one ends.
// No sweep that packs, by a test that all pass: it stores each entry whole, and in a trial its loop took half as long
// again with bodies of 64 bytes and a tenth more with 16 of 1,500 (the bar is a full move's, at most 1.5 memmoves).
// The words and how many entries, no parts: `as_chunks_mut` says nothing of what the words end as.
pub fn pack_bodies(words: &mut [u64], bytes: &mut [u8], entries: usize) -> usize
    requires { HoldsEntries entries words.old (length bytes.old) }
    ensures { Packs entries words.old bytes.old words.new bytes.new result }
{
    let mut run = Run {
        from: 0,
        to: 0,
        len: 0,
    };
    for i in 0..entries {
        let p = HEADER_WORDS + ENTRY_WORDS * i;
        let entry = entry_at(words, p);
        run = run_up_to(bytes, run, entry.place as usize);
        words[p + PLACE] = (run.to + run.len) as u64;
        run.len += entry.len as usize;
    }
    move_run(bytes, run)
}
