// The passes over the records and along the index in the test behind number 28, each linear.
#![tactic(auto)]

ghost use Rattle.std.specs.Prelude.{◌≡◌, ◌≤◌, length};
ghost use Rattle.table.specs.Parts.{templates_of, index_of};
ghost use Rattle.table.specs.WellFormed.{index_rises};
ghost use Rattle.table_passes.specs.Passes.{labels_below, record_fresh, Allowed, KeysSmall};

use config::RECORD_WORDS;
use table::{INDEX, TemplateRecord, template_of};

// Every key is below this: a 16-bit id.
const KEYS: u64 = 65536;

// Whether the labels of all records are below this.
pub fn labels_below(records: &[[u64; RECORD_WORDS]], most: u64) -> bool
    ensures { result ≡ labels_below most (templates_of records.now) }
{
    records
        .iter()
        .map(|words| template_of(words))
        .all(|template| template.label < most)
}

// Whether a record's key and count are in range and its label, which was allowed `was` entries before, is new.
#[tactic(auto, unfolding(crate::specs::Passes::record_fresh))]
fn record_fresh(template: TemplateRecord, was: u32, cap: u64) -> bool
    ensures { result ≡ record_fresh cap was template }
{
    template.key < KEYS && was == 0 && 0 < template.count && template.count <= cap
}

// The pass over the records: each label is allowed as many entries as its record counts.
pub fn records_pass(
    records: &[[u64; RECORD_WORDS]],
    allow: &mut [u32],
    cap: u64,
    entries: u64,
) -> bool
    requires { (length records.now ≤ 1024) × (cap ≤ 262144) }
    ensures { Allowed cap entries (templates_of records.now) allow.old allow.new result }
{
    let mut sum: u64 = 0;
    for words in records {
        let template = template_of(words);
        let label = template.label as usize;
        let Some(was) = allow.get(label) else {
            return false;
        };
        if !record_fresh(template, *was, cap) {
            return false;
        }
        allow[label] = template.count as u32;
        sum += template.count;
    }
    sum == entries
}

// The pass along the index: the keys rise, so that none stands twice.
pub fn index_rises(records: &[[u64; RECORD_WORDS]]) -> bool
    requires { KeysSmall (templates_of records.now) }
    ensures { result ≡ index_rises (templates_of records.now) 0 (index_of records.now) }
{
    let mut low: u64 = 0;
    for words in records {
        let Some(record) = records.get(words[INDEX] as usize) else {
            return false;
        };
        let key = template_of(record).key;
        if key < low {
            return false;
        }
        low = key + 1;
    }
    true
}
