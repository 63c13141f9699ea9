// Opening a cache.
ghost use Rattle.pending_flows.specs.View.{areas_of};
ghost use Rattle.pending_flows.specs.Opening.{Opens};

use super::header::{Header, HeaderFigures};
use config::{ConfigRefusal, PendingFlowsConfig};

// Opens an empty cache with both counters 0 in areas with any content, or refuses the limits.
pub fn open(
    config: PendingFlowsConfig,
    words: &mut [u64],
    bytes: &[u8],
) -> Result<(), ConfigRefusal>
    ensures { Opens config (areas_of words.old bytes.now) result
        (areas_of words.new bytes.now) }
{
    config::validate_config(config, bytes.len(), words.len())?;
    let figures = HeaderFigures {
        cached: 0,
        dropped: 0,
        total: 0,
        templates: 0,
        entries: 0,
        chance: 0,
    };
    let empty = Header {
        limits: config,
        figures,
    };
    empty.write(words);
    Ok(())
}
