// The limits of a pending flow cache, and which of them are refused (config.rs, ttl.rs, pending_flows.rs).
#![tactic(auto)]

mod age;

ghost use Rattle.std.specs.Prelude.{◌≡◌, ◌<◌};
ghost use Rattle.config.specs.Limits.{refusal_number, answer_number, limits_number, areas_hold, config_number};

pub use age::is_expired;

#[derive(Clone, Copy, Debug, PartialEq, Eq)]
pub struct PendingFlowsConfig {
    // how many templates are held
    pub max_pending_flows: usize,
    pub max_entries_per_template: usize,
    pub max_entry_size_bytes: usize,
    pub max_total_bytes: usize,
    // a body is expired at this age, in nanoseconds; without one, never
    pub ttl: Option<u64>,
}

// Why limits are refused.
#[derive(Clone, Copy, Debug, PartialEq, Eq)]
pub enum ConfigRefusal {
    NoTemplates,
    NoEntries,
    EntrySize,
    TotalBytes,
    // above what the areas, or any areas, can hold
    Areas,
}

// The largest body that a data set can have: a 16-bit length, less the 4-byte header.
pub const MAX_ENTRY_SIZE_LIMIT: usize = 65531;

pub const MAX_TEMPLATES: usize = 1024;

pub const MAX_BODIES: usize = 262144;

pub const MAX_BYTES: usize = 67108864;

// The word area: a header, a record for each template, an entry for each body.
pub const HEADER_WORDS: usize = 64;

pub const RECORD_WORDS: usize = 8;

pub const ENTRY_WORDS: usize = 4;

// Document 01's number of a refusal.
impl From<ConfigRefusal> for u32 {
    ghost from_gives = { λ refusal number. number ≡ refusal_number refusal };

    fn from(refusal: ConfigRefusal) -> u32 {
        match refusal {
            ConfigRefusal::NoTemplates => 1,
            ConfigRefusal::NoEntries => 2,
            ConfigRefusal::EntrySize => 3,
            ConfigRefusal::TotalBytes => 4,
            ConfigRefusal::Areas => 5,
        }
    }
}

// The limits by themselves: 1 to 4.
fn validate_limits(config: PendingFlowsConfig) -> Result<(), ConfigRefusal>
    ensures { answer_number result ≡ limits_number config }
{
    if config.max_pending_flows == 0 {
        return Err(ConfigRefusal::NoTemplates);
    }
    if config.max_entries_per_template == 0 {
        return Err(ConfigRefusal::NoEntries);
    }
    if config.max_entry_size_bytes == 0 {
        return Err(ConfigRefusal::EntrySize);
    }
    if MAX_ENTRY_SIZE_LIMIT < config.max_entry_size_bytes {
        return Err(ConfigRefusal::EntrySize);
    }
    if config.max_total_bytes == 0 {
        return Err(ConfigRefusal::TotalBytes);
    }
    if config.max_total_bytes < config.max_entry_size_bytes {
        return Err(ConfigRefusal::TotalBytes);
    }
    Ok(())
}

// Whether the limits are within what any areas hold, and areas of these lengths hold them.
fn areas_hold(config: PendingFlowsConfig, bytes_len: usize, words_len: usize) -> bool
    requires { 0 < config.max_pending_flows }
    ensures { result ≡ areas_hold config bytes_len words_len }
{
    let templates = config.max_pending_flows;
    let entries = config.max_entries_per_template;
    if MAX_TEMPLATES < templates {
        return false;
    }
    // tested before the product, which could be above 2^64 - 1
    if MAX_BODIES < entries {
        return false;
    }
    if MAX_BODIES < templates * entries {
        return false;
    }
    if MAX_BYTES < config.max_total_bytes {
        return false;
    }
    if bytes_len < config.max_total_bytes {
        return false;
    }
    HEADER_WORDS + RECORD_WORDS * templates + ENTRY_WORDS * (templates * entries) <= words_len
}

// Whether a cache can be opened with these limits in areas of these lengths.
pub fn validate_config(
    config: PendingFlowsConfig,
    bytes_len: usize,
    words_len: usize,
) -> Result<(), ConfigRefusal>
    ensures { answer_number result ≡ config_number config bytes_len words_len }
{
    validate_limits(config)?;
    if areas_hold(config, bytes_len, words_len) {
        return Ok(());
    }
    Err(ConfigRefusal::Areas)
}
