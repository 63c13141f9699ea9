// Where the words of a table stand, and what they say (docs/LAYOUT.md).
ghost use Rattle.std.specs.Prelude.{◌≡◌, ◌+◌, ◌*◌, ◌≤◌, length};
ghost use Rattle.config.specs.Limits.{header_words, record_words, entry_words, max_bodies};
ghost use Rattle.table.specs.Layout.{ttl_of, limits_of, entries_at, records_at};
ghost use Rattle.table.specs.Table.{entry_at, record_at, entries_from, records_from, index_from};
ghost use Rattle.table.specs.Parts.{entry_of, template_of, entries_of, templates_of, index_of};

use super::{Entry, TemplateRecord};
use config::{ENTRY_WORDS, HEADER_WORDS, PendingFlowsConfig, RECORD_WORDS};

// The header's words.
const MAX_PENDING_FLOWS: usize = 0;

const MAX_ENTRIES_PER_TEMPLATE: usize = 1;

const MAX_ENTRY_SIZE_BYTES: usize = 2;

const MAX_TOTAL_BYTES: usize = 3;

pub const TTL_SET: usize = 4;

const TTL: usize = 5;

pub const CACHED: usize = 6;

pub const DROPPED: usize = 7;

pub const TOTAL: usize = 8;

pub const HELD_COUNT: usize = 9;

pub const ENTRY_COUNT: usize = 10;

pub const CHANCE_COUNT: usize = 11;

// The word of a record's place that is the index's.
pub const INDEX: usize = 3;

// The entry whose first word is at p.
// By a place, beside `entry_of`: for those that write entries, who have no parts.
pub fn entry_at(words: &[u64], p: usize) -> Entry
    requires { p + entry_words ≤ length words.now }
    ensures { result ≡ entry_at words.now p }
{
    Entry {
        label: words[p],
        place: words[p + 1],
        len: words[p + 2],
        clock: words[p + 3],
    }
}

// The record whose first word is at p.
// By a place, beside `template_of`: for those that write records, who have no parts.
pub fn record_at(words: &[u64], p: usize) -> TemplateRecord
    requires { p + record_words ≤ length words.now }
    ensures { result ≡ record_at words.now p }
{
    TemplateRecord {
        key: words[p],
        label: words[p + 1],
        count: words[p + 2],
    }
}

// The entry that these words are.
pub fn entry_of(words: &[u64; ENTRY_WORDS]) -> Entry
    ensures { result ≡ entry_of words.now }
{
    let [label, place, len, clock] = *words;
    Entry {
        label,
        place,
        len,
        clock,
    }
}

// The record that these words are.
pub fn template_of(words: &[u64; RECORD_WORDS]) -> TemplateRecord
    ensures { result ≡ template_of words.now }
{
    let [key, label, count, ..] = *words;
    TemplateRecord { key, label, count }
}

// The words of so many entries, each by itself.
// A number beside the words: the area goes on behind the entries, and the header says how many they are.
pub fn entries_in(words: &[u64], entries: usize) -> &[[u64; ENTRY_WORDS]]
    requires { entries_at + entry_words * entries ≤ length words.now }
    ensures entries { entries_of result.now ≡ entries_from words.now entries_at entries }
    ensures count { length result.now ≡ entries }
{
    let (parts, _) = words[HEADER_WORDS..].as_chunks::<ENTRY_WORDS>();
    &parts[..entries]
}

// The words of so many records from word `from` on, each by itself.
// A place and a number beside the words: where the records begin, the limits say, and how many they are, the header.
pub fn records_in(words: &[u64], from: usize, records: usize) -> &[[u64; RECORD_WORDS]]
    requires { from + record_words * records ≤ length words.now }
    ensures templates { templates_of result.now ≡ records_from words.now from records }
    ensures index { index_of result.now ≡ index_from words.now from records }
    ensures count { length result.now ≡ records }
{
    let (parts, _) = words[from..].as_chunks::<RECORD_WORDS>();
    &parts[..records]
}

// The time to live that a flag and a word say.
pub fn ttl_of(set: u64, ttl: u64) -> Option<u64>
    ensures { result ≡ ttl_of set ttl }
{
    (set != 0).then_some(ttl)
}

// The configured limits.
// The words, no array of the header's alone: what is promised here and behind is of all the words.
pub fn limits_at(words: &[u64]) -> PendingFlowsConfig
    requires { header_words ≤ length words.now }
    ensures { result ≡ limits_of words.now }
{
    let ttl = ttl_of(words[TTL_SET], words[TTL]);
    PendingFlowsConfig {
        max_pending_flows: words[MAX_PENDING_FLOWS] as usize,
        max_entries_per_template: words[MAX_ENTRIES_PER_TEMPLATE] as usize,
        max_entry_size_bytes: words[MAX_ENTRY_SIZE_BYTES] as usize,
        max_total_bytes: words[MAX_TOTAL_BYTES] as usize,
        ttl,
    }
}

// Where the records begin.
pub fn records_at(limits: PendingFlowsConfig) -> usize
    requires { max_bodies limits ≤ 262144 }
    ensures { result ≡ records_at limits }
{
    HEADER_WORDS + ENTRY_WORDS * (limits.max_pending_flows * limits.max_entries_per_template)
}
