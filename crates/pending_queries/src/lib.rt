// The queries on a pending flow cache in lent areas (pending_flows.rs).
// Both areas are given, also where the words alone are read: what is asked is that the two hold a cache. They are two
// parameters, as some calls change the words alone.
#![tactic(auto)]

ghost use Rattle.std.specs.Prelude.{◌≡◌, length};
ghost use Rattle.table.specs.Table.{table_of};
ghost use Rattle.cache_model.specs.Cache.{says, tells};
ghost use Rattle.cache_model.specs.Queries.{would_accept, figures};
ghost use Rattle.pending_flows.specs.Header.{HoldsCache};
ghost use Rattle.pending_flows.specs.View.{areas_of, cache_of};
ghost use Rattle.pending_queries.specs.Queries.{Asks, accepts_with, accept_answer, figures_record, figures_answer};

use config::PendingFlowsConfig;
use pending_flows::{Header, handed_count};
use table::{Damaged, limits_at};
use table_watch::Sought;

// Whether a body of this length is within the limits, and the id's unexpired bodies are fewer than the cap.
#[tactic(auto, unfolding(crate::specs::Queries::accepts_with))]
fn accepts(limits: PendingFlowsConfig, len: usize, live: usize) -> bool
    ensures { result ≡ accepts_with limits len live }
{
    len <= limits.max_entry_size_bytes
        && len <= limits.max_total_bytes
        && live < limits.max_entries_per_template
}

// Whether an offer would be accepted: yes binds an offer of this id and length at this clock reading, no does not.
#[tactic(auto, using(crate::proofs::Answers::damaged, crate::proofs::Answers::asks, pending_flows::proofs::Questions::seen_damaged, pending_flows::proofs::Questions::seen_legal, pending_flows::proofs::Questions::header_within))]
pub fn would_accept(
    words: &[u64],
    bytes: &[u8],
    id: u16,
    len: usize,
    clock: u64,
) -> Result<bool, Damaged>
    ensures { Asks (λ c. says (would_accept id len clock c)) (areas_of words.now bytes.now)
        (accept_answer result) (areas_of words.now bytes.now) }
{
    let live = Sought::Live {
        id: id as u64,
        clock,
    };
    let seen = table_check::examine(words, bytes.len(), live)?;
    Ok(accepts(limits_at(words), len, seen.live))
}

// The figures of a cache.
#[derive(Clone, Copy, Debug, PartialEq, Eq)]
pub struct CacheFigures {
    pub templates: u64,
    pub bodies: u64,
    pub bytes: u64,
    pub cached: u64,
    pub dropped: u64,
    // bodies handed out that may still be put back
    pub handed: u64,
}

// The figures of a well-formed cache.
#[tactic(auto, using(crate::proofs::Figures::figures_read, pending_flows::proofs::Figures::handed_few))]
fn figures_of(words: &[u64], bytes: &[u8], header: Header) -> CacheFigures
    requires { HoldsCache header words.now (length bytes.now) }
    ensures { figures_record result ≡ figures (cache_of (table_of words.now) bytes.now) }
{
    let figures = header.figures;
    let handed = handed_count(words, bytes, header.limits);
    CacheFigures {
        templates: figures.templates,
        bodies: figures.entries - handed,
        bytes: figures.total,
        cached: figures.cached,
        dropped: figures.dropped,
        handed,
    }
}

// Templates and bodies held, the byte total, both counters, and the bodies handed out.
#[tactic(auto, using(crate::proofs::Answers::damaged, crate::proofs::Answers::asks))]
pub fn take_figures(words: &[u64], bytes: &[u8]) -> Result<CacheFigures, Damaged>
    ensures { Asks (λ c. tells (figures c)) (areas_of words.now bytes.now)
        (figures_answer result) (areas_of words.now bytes.now) }
{
    let header = Header::of_cache(words, bytes)?;
    Ok(figures_of(words, bytes, header))
}
