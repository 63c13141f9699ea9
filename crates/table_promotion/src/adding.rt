// A record more, behind the others, and its position in the index.
ghost use Rattle.std.specs.Prelude.{◌≡◌, true, ◌+◌, ◌*◌, ◌≤◌, leb, length};
ghost use Rattle.config.specs.Limits.{record_words};
ghost use Rattle.table.specs.Table.{records_from, index_from};
ghost use Rattle.table.specs.Parts.{templates_of};
ghost use Rattle.table.specs.WellFormed.{key_at, index_rises};
ghost use Rattle.table_records.specs.Add.{Adds};
ghost use Rattle.table_records.specs.Passes.{OpensIndex};

use config::RECORD_WORDS;
use table::{INDEX, TemplateRecord, records_in, template_of};
use table_records::put_record;

// Whether the record at a position has a key of at most this; with no record there, none is greater.
fn key_at_most(records: &[[u64; RECORD_WORDS]], position: u64, key: u64) -> bool
    ensures { result ≡ leb (key_at (templates_of records.now) position) key }
{
    records
        .get(position as usize)
        .map_or(true, |words| template_of(words).key <= key)
}

// Moves the index words of greater keys one place on, from the back, and returns the place that is free then.
// The words and a place, no parts: `as_chunks_mut` says nothing of what the words end as.
fn open_index(words: &mut [u64], from: usize, records: usize, key: u64) -> usize
    requires records_in_bounds { from + record_words * (records + 1) ≤ length words.old }
    requires records_value { index_rises (records_from words.old from records) 0 (index_from words.old from records) ≡ true }
    ensures { OpensIndex from records key words.old words.new result }
{
    for k in (0..records).rev() {
        let p = from + RECORD_WORDS * k;
        let position = words[p + INDEX];
        let known = records_in(words, from, records);
        if key_at_most(known, position, key) {
            return k + 1;
        }
        words[p + RECORD_WORDS + INDEX] = position;
    }
    0
}

// Adds a record behind those from word `from` on, and its position to the index.
// The words and a place, no parts: `as_chunks_mut` says nothing of what the words end as.
pub fn add_record(words: &mut [u64], from: usize, records: usize, template: TemplateRecord)
    requires records_in_bounds { from + record_words * (records + 1) ≤ length words.old }
    requires records_value { index_rises (records_from words.old from records) 0 (index_from words.old from records) ≡ true }
    ensures { Adds from records template words.old words.new }
{
    let free = open_index(words, from, records, template.key);
    words[from + RECORD_WORDS * free + INDEX] = records as u64;
    put_record(words, from + RECORD_WORDS * records, template);
}
