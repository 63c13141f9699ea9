// Closing: records whose label has no bodies left go, the others have their counts anew, and the index follows.
#![tactic(auto)]

ghost use Rattle.std.specs.Prelude.{◌≡◌, ◌+◌, ◌*◌, ◌≤◌, length, get_or};
ghost use Rattle.config.specs.Limits.{record_words};
ghost use Rattle.table_records.specs.Close.{nowhere, position_told, Closes};
ghost use Rattle.table_records.specs.Passes.{ClosesRecords};

use config::RECORD_WORDS;
use table::{LABELS, TemplateRecord, record_at};
use table_records::{NOWHERE, close_index, position_told, put_record, sum_of};

// Moves the records that remain together, with their counts anew, and notes the new position of each.
// The words and a place, no parts: `as_chunks_mut` says nothing of what the words end as.
fn close_records(
    words: &mut [u64],
    from: usize,
    records: usize,
    kept: &[u32; LABELS],
    positions: &mut [u32],
) -> usize
    requires records_in_bounds { (from + record_words * records ≤ length words.old) × (records ≤ 1024) }
    requires records_in_bounds_2 { records ≤ length positions.old }
    ensures { ClosesRecords from records kept.now words.old words.new
        positions.new result }
{
    let mut remain: usize = 0;
    for i in 0..records {
        let template = record_at(words, from + RECORD_WORDS * i);
        let count = sum_of(kept, template.label);
        if 0 < count {
            let recounted = TemplateRecord {
                count: count as u64,
                ..template
            };
            put_record(words, from + RECORD_WORDS * remain, recounted);
            positions[i] = remain as u32;
            remain += 1;
        } else {
            positions[i] = NOWHERE as u32;
        }
    }
    remain
}

// The new position of a record, if it remains.
fn position_of(positions: &[u32], position: u64) -> Option<u64>
    ensures { result ≡ position_told (get_or positions.now position nowhere) }
{
    let moved = positions.get(position as usize)?;
    position_told(u64::from(*moved))
}

// Closes the records from word `from` on and returns how many remain.
// The words and a place, no parts: `as_chunks_mut` says nothing of what the words end as.
pub fn close(words: &mut [u64], from: usize, records: usize, kept: &[u32; LABELS]) -> usize
    requires { (from + record_words * records ≤ length words.old) × (records ≤ 1024) }
    ensures { Closes from records kept.now words.old words.new result }
{
    let mut positions = [0; LABELS];
    let remain = close_records(words, from, records, kept, &mut positions);
    let noted = &positions[..records];
    close_index(words, from, records, |position| {
        position_of(noted, position)
    });
    remain
}
