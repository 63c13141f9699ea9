// Limits as numbers, and opening a cache with them.
ghost use Rattle.std.specs.Prelude.{◌≡◌};
ghost use Rattle.pending_flows.specs.View.{areas_of};
ghost use Rattle.export_queries.specs.Exports.{limits_from, ExportsValidate, ExportsOpen};

use answer_numbers::number_of;
use config::PendingFlowsConfig;
use table::ttl_of;

// The limits that these numbers say: one by one is how C hands them over (no struct of ours crosses).
pub fn limits_from(
    max_pending_flows: usize,
    max_entries_per_template: usize,
    max_entry_size_bytes: usize,
    max_total_bytes: usize,
    has_ttl: u32,
    ttl: u64,
) -> PendingFlowsConfig
    ensures { result ≡ limits_from max_pending_flows max_entries_per_template max_entry_size_bytes max_total_bytes
        has_ttl ttl }
{
    PendingFlowsConfig {
        max_pending_flows,
        max_entries_per_template,
        max_entry_size_bytes,
        max_total_bytes,
        ttl: ttl_of(u64::from(has_ttl), ttl),
    }
}

// Whether a cache can be opened with these limits in areas of these lengths: 0, or 1 to 5.
#[tactic(auto, using(crate::proofs::Exports::limits_number_is))]
pub fn validate_config(words_len: usize, bytes_len: usize, limits: PendingFlowsConfig) -> u32
    ensures { ExportsValidate words_len bytes_len limits result }
{
    number_of(config::validate_config(limits, bytes_len, words_len))
}

// Opens an empty cache in areas with any content: 0, or 1 to 5 with nothing changed.
#[tactic(auto, using(crate::proofs::Exports::exports_open))]
pub fn open(words: &mut [u64], bytes: &[u8], limits: PendingFlowsConfig) -> u32
    ensures { ExportsOpen limits (areas_of words.old bytes.now) result
        (areas_of words.new bytes.now) }
{
    number_of(pending_flows::open(limits, words, bytes))
}
