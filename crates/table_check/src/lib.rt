// The test behind number 28: whether the words, beside so many bytes, hold a well-formed table. It is linear: one pass
// over the records (where they are few one over their labels before it), one along the index, one over the entries. The
// last also watches the entries that a query or an offer is about.
#![tactic(auto)]

ghost use Rattle.std.specs.Prelude.{◌≡◌, ◌&&◌, ◌<◌, ◌≤◌, length};
ghost use Rattle.config.specs.Limits.{header_words, max_bodies};
ghost use Rattle.table.specs.Layout.{limits_of};
ghost use Rattle.table.specs.WellFormed.{flags_legal, counts_legal};
ghost use Rattle.table_check.specs.Header.{HeaderLegal};
ghost use Rattle.table_check.specs.Room.{RoomForAllowances};
ghost use Rattle.table_check.specs.Examined.{table_examined, examined};

use config::{HEADER_WORDS, PendingFlowsConfig, validate_config};
use table::{
    CHANCE_COUNT, Damaged, ENTRY_COUNT, FEW_LABELS, HELD_COUNT, LABELS, TOTAL, TTL_SET, entries_in,
    first_label, label_number, limits_at, records_at, records_in,
};
use table_entry_test::entries_pass;
use table_passes::{index_rises, labels_below, records_pass};
use table_watch::{LabelSeen, Sought, watch_for};

// Tests the records, the index and the entries by the three passes, and looks for what is sought. What the labels are
// allowed stands in `allow`.
fn test_table(
    words: &[u64],
    allow: &mut [u32],
    limits: PendingFlowsConfig,
    sought: Sought,
) -> Result<LabelSeen, Damaged>
    requires { HeaderLegal limits words.now × RoomForAllowances words.now allow.old }
    ensures { result ≡ table_examined words.now sought }
{
    let held_count = words[HELD_COUNT] as usize;
    let chance = words[CHANCE_COUNT] as usize;
    let records = records_in(words, records_at(limits), held_count + chance);
    let cap = limits.max_entries_per_template as u64;
    if !records_pass(records, allow, cap, words[ENTRY_COUNT]) {
        return Err(Damaged);
    }
    if !index_rises(records) {
        return Err(Damaged);
    }
    let (held, handed) = records.split_at(held_count);
    // Where none is handed out, a number that no entry has as label: the loop over the entries then compares it in one
    // instruction.
    let out = label_number(first_label(handed));
    let watch = watch_for(held, limits.ttl, out, sought);
    let entries = entries_in(words, words[ENTRY_COUNT] as usize);
    entries_pass(entries, allow, limits, out, words[TOTAL], watch)
}

// Tests a table whose header is legal, and looks for what is sought.
fn examine_table(
    words: &[u64],
    limits: PendingFlowsConfig,
    sought: Sought,
) -> Result<LabelSeen, Damaged>
    requires { HeaderLegal limits words.now }
    ensures { result ≡ table_examined words.now sought }
{
    let count = (words[HELD_COUNT] as usize) + (words[CHANCE_COUNT] as usize);
    if count <= FEW_LABELS {
        let records = records_in(words, records_at(limits), count);
        if labels_below(records, FEW_LABELS as u64) {
            let mut few = [0u32; FEW_LABELS];
            return test_table(words, &mut few, limits, sought);
        }
    }
    let mut allow = [0u32; LABELS];
    test_table(words, &mut allow, limits, sought)
}

// Whether the flags are flags, and the words have no more templates and entries than the limits.
// The words, no array of the header's alone: what is promised is of all the words.
fn counts_legal(words: &[u64]) -> bool
    requires header_words_in_bounds { header_words ≤ length words.now }
    requires max_pending_flows_nonzero { (0 < (limits_of words.now).max_pending_flows) ×
        (max_bodies (limits_of words.now) ≤ 262144) }
    ensures { result ≡ (flags_legal words.now && counts_legal words.now) }
{
    let limits = limits_at(words);
    let templates = limits.max_pending_flows as u64;
    let chance = words[CHANCE_COUNT];
    words[TTL_SET] <= 1
        && chance <= 1
        && words[HELD_COUNT] <= templates - chance
        && words[ENTRY_COUNT] <= templates * (limits.max_entries_per_template as u64)
}

// Whether the words, beside so many bytes, hold a well-formed table, and what is seen of what is sought in it.
pub fn examine(words: &[u64], bytes_len: usize, sought: Sought) -> Result<LabelSeen, Damaged>
    ensures { result ≡ examined words.now bytes_len sought }
{
    if words.len() < HEADER_WORDS {
        return Err(Damaged);
    }
    let limits = limits_at(words);
    // no `map_err` and `?`: tried, and what is answered then did not close
    let Ok(()) = validate_config(limits, bytes_len, words.len()) else {
        return Err(Damaged);
    };
    if !counts_legal(words) {
        return Err(Damaged);
    }
    examine_table(words, limits, sought)
}
