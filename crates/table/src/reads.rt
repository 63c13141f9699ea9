// What is read off the records and entries of a table.
ghost use Rattle.std.specs.Prelude.{◌≡◌};
ghost use Rattle.table.specs.Parts.{entries_of, templates_of};
ghost use Rattle.table.specs.Passes.{label_of_first};
ghost use Rattle.table.specs.Reads.{record_of, count_in, label_of, label_or_none, count_of, is_live, live_figures};

use super::layout::{entry_of, template_of};
use super::{Entry, LABELS, LiveFigures, TemplateRecord};
use config::{ENTRY_WORDS, RECORD_WORDS, is_expired};

// The record with this key.
pub fn record_of(records: &[[u64; RECORD_WORDS]], key: u64) -> Option<TemplateRecord>
    ensures { result ≡ record_of key (templates_of records.now) }
{
    records
        .iter()
        .map(template_of)
        .find(|template| key == template.key)
}

// The label of the record with this key.
#[tactic(auto, using(crate::proofs::Lookups::label_told, crate::proofs::Lookups::no_label_told))]
pub fn label_of(records: &[[u64; RECORD_WORDS]], key: u64) -> Option<u64>
    ensures { result ≡ label_of key (templates_of records.now) }
{
    record_of(records, key).map(|template| template.label)
}

// How many bodies the record that was found counts; 0 where there is none.
pub fn count_in(found: Option<TemplateRecord>) -> u64
    ensures { result ≡ count_in found }
{
    found.map_or(0, |template| template.count)
}

// How many bodies the record with this key counts; 0 where none has the key.
#[tactic(auto, using(crate::proofs::Lookups::count_read))]
pub fn count_of(records: &[[u64; RECORD_WORDS]], key: u64) -> u64
    ensures { result ≡ count_of key (templates_of records.now) }
{
    count_in(record_of(records, key))
}

// The first record's label.
pub fn first_label(records: &[[u64; RECORD_WORDS]]) -> Option<u64>
    ensures { result ≡ label_of_first (templates_of records.now) }
{
    records.first().map(|words| template_of(words).label)
}

// A label as a number: where there is none, what is no label.
pub fn label_number(label: Option<u64>) -> u64
    ensures { result ≡ label_or_none label }
{
    label.unwrap_or(LABELS as u64)
}

// Whether an entry has this label and is not expired.
fn is_live(entry: Entry, label: u64, ttl: Option<u64>, clock: u64) -> bool
    ensures { result ≡ is_live ttl clock label entry }
{
    label == entry.label && !is_expired(ttl, clock, entry.clock)
}

// How many of the entries have this label and are not expired, and their lengths together.
pub fn live_figures(
    entries: &[[u64; ENTRY_WORDS]],
    label: u64,
    ttl: Option<u64>,
    clock: u64,
) -> LiveFigures
    ensures { result ≡ live_figures ttl clock label (entries_of entries.now) }
{
    let mut bodies: usize = 0;
    let mut bytes: u64 = 0;
    for words in entries {
        let entry = entry_of(words);
        if is_live(entry, label, ttl, clock) {
            bodies += 1;
            bytes = bytes.wrapping_add(entry.len);
        }
    }
    LiveFigures { bodies, bytes }
}
