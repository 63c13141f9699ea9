// The calls that change a cache: each answers document 01's number, 0 on success, and writes values then only. The lent
// areas are two parameters: some calls change the words alone.
#![tactic(auto)]

ghost use Rattle.pending_flows.specs.View.{areas_of};
ghost use Rattle.export_calls.specs.Calls.{ExportsCache, ExportsDrain, ExportsPutBack, ExportsResize};
ghost use Rattle.export_calls.specs.Calls.{ExportsClear};

use answer_numbers::{number_of, write_count};
use config::PendingFlowsConfig;

// Offers a body: 0, or 28, 6 or 20.
#[tactic(auto, using(crate::proofs::Calls::exports_cache))]
pub fn cache(words: &mut [u64], bytes: &mut [u8], id: u16, body: &[u8], clock: u64) -> u32
    ensures { ExportsCache id body.now clock (areas_of words.old bytes.old) result
        (areas_of words.new bytes.new) }
{
    number_of(pending_offer::cache(words, bytes, id, body, clock))
}

// Removes an id and hands out its unexpired bodies: 0 with their number, or 28.
#[tactic(auto, using(crate::proofs::Calls::exports_drain))]
pub fn drain(words: &mut [u64], bytes: &[u8], id: u16, clock: u64, handed_out: &mut u64) -> u32
    ensures { ExportsDrain id clock (areas_of words.old bytes.now) result
        (areas_of words.new bytes.now) handed_out.old handed_out.new }
{
    write_count(pending_drain::drain(words, bytes, id, clock), handed_out)
}

// Puts the last `count` bodies handed out back: 0, or 28 or 25.
#[tactic(auto, using(crate::proofs::Calls::exports_put_back))]
pub fn restore_replay_suffix(words: &mut [u64], bytes: &[u8], id: u16, count: usize) -> u32
    ensures { ExportsPutBack id count (areas_of words.old bytes.now) result
        (areas_of words.new bytes.now) }
{
    number_of(pending_restore::restore_replay_suffix(words, bytes, id, count))
}

// Changes the limits and drops what they leave no room for: 0 with the number dropped, or 28 or 1 to 5.
#[tactic(auto, using(crate::proofs::Calls::exports_resize))]
pub fn resize(
    words: &mut [u64],
    bytes: &mut [u8],
    limits: PendingFlowsConfig,
    dropped: &mut u64,
) -> u32
    ensures { ExportsResize limits (areas_of words.old bytes.old) result
        (areas_of words.new bytes.new) dropped.old dropped.new }
{
    write_count(pending_resize::resize(words, bytes, limits), dropped)
}

// Empties the cache and leaves its counters: 0, or 28.
pub fn clear(words: &mut [u64], bytes: &[u8]) -> u32
    ensures { ExportsClear (areas_of words.old bytes.now) result
        (areas_of words.new bytes.now) }
{
    number_of(pending_calls::clear(words, bytes))
}
