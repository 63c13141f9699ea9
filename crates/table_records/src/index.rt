// The index of records of which some go.
ghost use Rattle.std.specs.Prelude.{List, ℕ, ◌≡◌, ◌+◌, ◌*◌, ◌≤◌, length};
ghost use Rattle.config.specs.Limits.{record_words};
ghost use Rattle.table_records.specs.Close.{position_told};
ghost use Rattle.table_records.specs.Passes.{ClosesIndex, TellsPositions};

use config::RECORD_WORDS;
use table::INDEX;

// What stands for the new position of a record that goes, where positions are kept in an array: one of Options would
// take twice the room.
pub const NOWHERE: u64 = 1024;

// The position that a number of such an array tells, if it is one.
pub fn position_told(number: u64) -> Option<u64>
    ensures { result ≡ position_told number }
{
    (number < NOWHERE).then_some(number)
}

// Moves the index words of the records that remain together, where `moved` tells the new position of each that does.
// The words and a place, no parts: `as_chunks_mut` says nothing of what the words end as.
pub fn close_index<F: Fn(u64) -> Option<u64>>(
    words: &mut [u64],
    from: usize,
    records: usize,
    moved: F,
)
    requires records_in_bounds { from + record_words * records ≤ length words.old }
    requires callable { F.IsAlwaysCallable moved }
    ensures { (ps : List ℕ) → TellsPositions (F.post moved) ps → ClosesIndex from records ps words.old words.new }
{
    let mut remain: usize = 0;
    for k in 0..records {
        if let Some(position) = moved(words[from + RECORD_WORDS * k + INDEX]) {
            words[from + RECORD_WORDS * remain + INDEX] = position;
            remain += 1;
        }
    }
}
