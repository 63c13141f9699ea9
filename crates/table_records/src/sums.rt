// Sums by label: what is no label has 0, and nothing is stored for it.
ghost use Rattle.std.specs.Prelude.{◌≡◌, get_or, set};
ghost use Rattle.table_records.specs.Take.{capped_count};

// What a label has; past the end, 0.
#[tactic(auto, using(crate::proofs::PastEnd::past_end))]
pub fn sum_of(sums: &[u32], label: u64) -> u32
    ensures { result ≡ get_or sums.now label 0 }
{
    sums.get(label as usize).copied().unwrap_or(0)
}

// Stores what a label has; past the end, nothing.
// A test of the length: of `get_mut` std does not say what the slice ends as.
#[tactic(auto, using(crate::proofs::PastEnd::set_past_end))]
pub fn set_sum(sums: &mut [u32], label: u64, sum: u32)
    ensures { sums.new ≡ set sums.old label sum }
{
    let at = label as usize;
    if at < sums.len() {
        sums[at] = sum;
    }
}

// A record's count as a sum by label, which stops at the largest 32-bit number.
pub fn capped_count(count: u64) -> u32
    ensures { result ≡ capped_count count }
{
    u32::try_from(count).unwrap_or(u32::MAX)
}
