// How many bodies of each record stay, where all of its bodies are skipped or none.
ghost use Rattle.std.specs.Prelude.{◌≡◌};
ghost use Rattle.table.specs.Parts.{templates_of};
ghost use Rattle.table_records.specs.Whole.{whole_count, whole_counts};

use super::sums::{capped_count, set_sum, sum_of};
use config::RECORD_WORDS;
use table::{LABELS, template_of};

// What a record counts where none of its bodies is skipped; else none.
fn whole_count(skipped: u32, count: u64) -> u32
    ensures { result ≡ whole_count skipped count }
{
    if skipped == 0 { capped_count(count) } else { 0 }
}

// Sets in `kept` how many bodies of each record stay. No entry is looked at.
#[tactic(auto, using(crate::proofs::Chosen::setting))]
pub fn count_whole(records: &[[u64; RECORD_WORDS]], skip: &[u32; LABELS], kept: &mut [u32; LABELS])
    ensures { kept.new ≡ whole_counts skip.now kept.old (templates_of records.now) }
{
    for words in records {
        let template = template_of(words);
        let label = template.label;
        set_sum(
            kept,
            label,
            whole_count(sum_of(skip, label), template.count),
        );
    }
}
