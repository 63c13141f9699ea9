// Taking one record off: the records behind it move up, and the index follows.
ghost use Rattle.std.specs.Prelude.{◌≡◌, ◌+◌, ◌*◌, ◌≤◌, ◌<◌, length, get_or};
ghost use Rattle.config.specs.Limits.{record_words};
ghost use Rattle.table.specs.Parts.{templates_of};
ghost use Rattle.table_records.specs.Close.{nowhere, position_told};
ghost use Rattle.table_records.specs.Take.{found_place, positions_but, TakesOff};
ghost use Rattle.table_promotion.specs.Taking.{TakesLabel};
ghost use Rattle.table_records.specs.Passes.{MovesUp};

use config::RECORD_WORDS;
use table::{record_at, records_in, template_of};
use table_records::{capped_count, close_index, position_told, put_record};

// The place of the first record with this label.
pub fn place_of(records: &[[u64; RECORD_WORDS]], label: u64) -> Option<usize>
    ensures { result ≡ found_place label (templates_of records.now) }
{
    records
        .iter()
        .map(|words| template_of(words))
        .position(|template| label == template.label)
}

// Moves the records behind a place up by one; index words stay.
// The words and a place, no parts: `as_chunks_mut` says nothing of what the words end as.
fn move_up(words: &mut [u64], from: usize, records: usize, at: usize)
    requires { (from + record_words * records ≤ length words.old) × (at < records) }
    ensures { MovesUp from records at words.old words.new }
{
    for i in at..records - 1 {
        let p = from + RECORD_WORDS * i;
        let template = record_at(words, p + RECORD_WORDS);
        put_record(words, p, template);
    }
}

// The new position of a record, where the one at a place goes.
fn position_but(at: usize, records: usize, position: u64) -> Option<u64>
    requires { at < records }
    ensures { result ≡ position_told (get_or (positions_but 0 at records) position nowhere) }
{
    if (records as u64) <= position {
        return None;
    }
    if position < (at as u64) {
        return position_told(position);
    }
    if (at as u64) < position {
        return position_told(position - 1);
    }
    None
}

// Takes the record at a place off, and returns how many bodies it counted.
// The words and a place, no parts: `as_chunks_mut` says nothing of what the words end as.
pub fn take_off(words: &mut [u64], from: usize, records: usize, at: usize) -> u32
    requires { (from + record_words * records ≤ length words.old) × (at < records) }
    ensures { TakesOff from records at words.old words.new result }
{
    let template = record_at(words, from + RECORD_WORDS * at);
    move_up(words, from, records, at);
    close_index(words, from, records, |position| {
        position_but(at, records, position)
    });
    capped_count(template.count)
}

// How many records are left, and how many bodies the one that went counted; 0 where none went.
#[derive(Clone, Copy)]
pub struct Taken {
    pub records: usize,
    pub bodies: u32,
}

// Takes the record of a label off, where there is one.
// The words and a place, no parts: `as_chunks_mut` says nothing of what the words end as.
pub fn take_record(words: &mut [u64], from: usize, records: usize, label: u64) -> Taken
    requires { from + record_words * records ≤ length words.old }
    ensures { TakesLabel label from records words.old words.new result }
{
    let known = records_in(words, from, records);
    let Some(at) = place_of(known, label) else {
        return Taken { records, bodies: 0 };
    };
    let bodies = take_off(words, from, records, at);
    let remain = records - 1;
    Taken {
        records: remain,
        bodies,
    }
}
