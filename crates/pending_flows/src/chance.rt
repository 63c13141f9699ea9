// The chance of a put-back: how many bodies it is for.
ghost use Rattle.std.specs.Prelude.{◌≡◌, true, length};
ghost use Rattle.table.specs.Layout.{limits_of};
ghost use Rattle.table.specs.Table.{table_of};
ghost use Rattle.table.specs.Reads.{count_sum};
ghost use Rattle.table.specs.WellFormed.{well_formed};

use config::{PendingFlowsConfig, RECORD_WORDS};
use table::{CHANCE_COUNT, HELD_COUNT, record_at, records_at};

// How many handed-out bodies may still be put back.
// The limits alone: a header's clause would ask more of those that call it.
pub fn handed_count(words: &[u64], bytes: &[u8], limits: PendingFlowsConfig) -> u64
    requires { (well_formed words.now (length bytes.now) ≡ true) × (limits ≡ limits_of words.now) }
    ensures { result ≡ count_sum (table_of words.now).handed }
{
    if words[CHANCE_COUNT] == 0 {
        return 0;
    }
    let held = words[HELD_COUNT] as usize;
    record_at(words, records_at(limits) + RECORD_WORDS * held).count
}
