// Shrinking a cache to new limits, all but its header.
ghost use Rattle.std.specs.Prelude.{◌≡◌, length};
ghost use Rattle.config.specs.Limits.{config_number};
ghost use Rattle.pending_flows.specs.Header.{HoldsCache};
ghost use Rattle.pending_resize.specs.Shrink.{Shrinks};

use config::{PendingFlowsConfig, RECORD_WORDS};
use pending_calls::Removed;
use pending_flows::Header;
use resize_steps::{cut, fit_places, fit_total};
use table::records_at;

// Removes what the new limits do not leave, moves bodies where the new total demands it, and the records to the place
// that the new limits say.
pub fn shrink(
    words: &mut [u64],
    bytes: &mut [u8],
    header: Header,
    config: PendingFlowsConfig,
) -> Removed
    requires holds { HoldsCache header words.old (length bytes.old) }
    requires accepted { config_number config (length bytes.old) (length words.old) ≡ 0 }
    ensures { Shrinks config words.old bytes.old words.new bytes.new result }
{
    let from = records_at(header.limits);
    let room = config.max_total_bytes as u64;
    let few = cut(words, from, header.figures, config);
    let left = fit_total(words, from, few, room);
    fit_places(words, bytes, left.entries, room);
    let to = records_at(config);
    areas::move_within(words, from, to, RECORD_WORDS * left.records);
    left
}
