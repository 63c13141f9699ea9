// The resize.
ghost use Rattle.std.specs.Prelude.{◌≡◌, length};
ghost use Rattle.config.specs.Limits.{config_number};
ghost use Rattle.table.specs.Table.{table_of};
ghost use Rattle.cache_model.specs.Cache.{raised};
ghost use Rattle.pending_flows.specs.Header.{HoldsCache};
ghost use Rattle.pending_flows.specs.View.{areas_of, cache_of};
ghost use Rattle.pending_resize.specs.Promises.{resize_number, ResizesTo, Resizes};
ghost use Rattle.pending_resize.specs.declared.resizing.ResizeRefusal.TheVariants as ResizeRefusal;

use super::shrinking::shrink;
use config::{ConfigRefusal, PendingFlowsConfig};
use pending_calls::raised;
use pending_flows::{Header, HeaderFigures, handed_count};
use table::Damaged;

// Why a cache is not resized.
#[derive(Clone, Copy, Debug, PartialEq, Eq)]
pub enum ResizeRefusal {
    Limits(ConfigRefusal),
    Damaged,
}

impl From<Damaged> for ResizeRefusal {
    ghost from_gives = { λ _ refusal. refusal ≡ ResizeRefusal.Damaged };

    fn from(_damaged: Damaged) -> ResizeRefusal {
        ResizeRefusal::Damaged
    }
}

impl From<ConfigRefusal> for ResizeRefusal {
    ghost from_gives = { λ limits refusal. refusal ≡ ResizeRefusal.Limits limits };

    fn from(limits: ConfigRefusal) -> ResizeRefusal {
        ResizeRefusal::Limits(limits)
    }
}

// Document 01's number of a refusal.
impl From<ResizeRefusal> for u32 {
    ghost from_gives = { λ refusal number. number ≡ resize_number refusal };

    fn from(refusal: ResizeRefusal) -> u32 {
        match refusal {
            ResizeRefusal::Limits(limits) => limits.into(),
            ResizeRefusal::Damaged => 28,
        }
    }
}

// Resizes a well-formed cache to limits that are not refused; answers how many bodies are dropped.
#[tactic(auto, using(pending_flows::proofs::Questions::header_within, pending_flows::proofs::Figures::handed_few, crate::proofs::Resized::left_few))]
fn resize_cache(
    words: &mut [u64],
    bytes: &mut [u8],
    header: Header,
    config: PendingFlowsConfig,
) -> usize
    requires header_value { HoldsCache header words.old (length bytes.old) }
    requires accepted { config_number config (length bytes.old) (length words.old) ≡ 0 }
    ensures { ResizesTo config (cache_of (table_of words.old) bytes.old)
        (areas_of words.old bytes.old) result
        (areas_of words.new bytes.new) }
{
    let figures = header.figures;
    let handed = handed_count(words, bytes, header.limits);
    let left = shrink(words, bytes, header, config);
    let dropped = figures.entries - handed - (left.entries as u64);
    let remaining = HeaderFigures {
        cached: figures.cached,
        dropped: raised(figures.dropped, dropped),
        total: left.bytes,
        templates: left.records as u64,
        entries: left.entries as u64,
        chance: 0,
    };
    let resized = Header {
        limits: config,
        figures: remaining,
    };
    resized.write(words);
    dropped as usize
}

// Changes the limits and drops the bodies that they do not leave room for, and answers how many; the counters go on,
// and nothing stays handed out. Limits that are refused change nothing.
#[tactic(auto, using(crate::proofs::Answers::resize_damaged))]
pub fn resize(
    words: &mut [u64],
    bytes: &mut [u8],
    config: PendingFlowsConfig,
) -> Result<usize, ResizeRefusal>
    ensures { Resizes config (areas_of words.old bytes.old) result
        (areas_of words.new bytes.new) }
{
    let header = Header::of_cache(words, bytes)?;
    config::validate_config(config, bytes.len(), words.len())?;
    Ok(resize_cache(words, bytes, header, config))
}
