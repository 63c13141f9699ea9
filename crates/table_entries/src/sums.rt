// Sums over entries.
ghost use Rattle.std.specs.Prelude.{Bool, ◌≡◌, ◌+◌, min};
ghost use Rattle.table.specs.Parts.{entries_of};
ghost use Rattle.table_entries.specs.declared.StayTest.{StayTest};
ghost use Rattle.table_entries.specs.Sums.{sum_most, more_at, summed, TellsShares};

use config::ENTRY_WORDS;
use table::{Entry, LABELS, entry_of};

// A sum and n more, which stop at the largest 32-bit number.
fn capped_sum(sum: u32, n: u64) -> u32
    ensures { result ≡ min (sum + n) sum_most }
{
    u32::try_from(u64::from(sum).saturating_add(n)).unwrap_or(u32::MAX)
}

// Adds n to a label's sum. A label that is none has no sum.
// A test of the length: of `get_mut` std does not say what the slice ends as.
#[tactic(auto, using(crate::proofs::SumsPasses::none_added))]
fn add_at(sums: &mut [u32; LABELS], label: u64, n: u64)
    ensures { sums.new ≡ more_at sums.old label n }
{
    let at = label as usize;
    if at < sums.len() {
        sums[at] = capped_sum(sums[at], n);
    }
}

// Adds to each label's sum what `share` tells of each of its entries; an entry of which nothing is told adds nothing.
#[tactic(auto, using(crate::proofs::SumsPasses::passes))]
pub fn sums_by_label<F: Fn(Entry) -> Option<u64>>(
    entries: &[[u64; ENTRY_WORDS]],
    share: F,
    sums: &mut [u32; LABELS],
)
    requires { F.IsAlwaysCallable share }
    ensures { (test : StayTest) (bytes : Bool) → TellsShares (F.post share) test bytes →
        sums.new ≡ summed test bytes sums.old (entries_of entries.now) }
{
    for words in entries {
        let entry = entry_of(words);
        if let Some(more) = share(entry) {
            add_at(sums, entry.label, more);
        }
    }
}
