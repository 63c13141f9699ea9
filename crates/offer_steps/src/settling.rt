// The counters, and the header after an offer.
// Both areas are given, also where the words alone are read: what is asked is that the two hold a cache. They are two
// parameters, as some calls change the words alone.
ghost use Rattle.std.specs.Prelude.{◌≡◌, ◌≤◌, length, set};
ghost use Rattle.areas.specs.Overwrite.{overwritten};
ghost use Rattle.config.specs.Limits.{header_words};
ghost use Rattle.table.specs.Layout.{dropped_word};
ghost use Rattle.table.specs.Table.{table_of};
ghost use Rattle.cache_model.specs.Bodies.{all_bodies};
ghost use Rattle.cache_model.specs.Cache.{raised};
ghost use Rattle.pending_flows.specs.Header.{dropped_at, header_of, HoldsCache};
ghost use Rattle.pending_flows.specs.View.{cache_of};
ghost use Rattle.offer_steps.specs.Settle.{settled_figures};

use pending_calls::raised;
use pending_flows::{Header, HeaderFigures, handed_count};
use table::DROPPED;

// Counts one more dropped body.
// The words, no array of the header's alone: what is promised is of all the words.
pub fn count_drop(words: &mut [u64])
    requires { header_words ≤ length words.old }
    ensures { words.new ≡ set words.old dropped_at (raised (dropped_word words.old) 1) }
{
    words[DROPPED] = raised(words[DROPPED], 1);
}

// How many bodies are held: all but those that are handed out.
#[tactic(auto, using(pending_flows::proofs::Figures::handed_few, crate::proofs::HeldBodies::held_rest))]
pub fn held_bodies(words: &[u64], bytes: &[u8], header: Header) -> u64
    requires { HoldsCache header words.now (length bytes.now) }
    ensures { result ≡ length (all_bodies (cache_of (table_of words.now) bytes.now).held) }
{
    header.figures.entries - handed_count(words, bytes, header.limits)
}

// The words, no array of the header's alone: what is promised is of all the words.
// Writes the header after an offer: so many bodies more are cached and dropped, so many bytes, templates and bodies are
// held, and nothing is handed out.
#[tactic(auto, using(crate::proofs::HeldBodies::header_settled))]
pub fn settle(
    words: &mut [u64],
    header: Header,
    cached: u64,
    dropped: u64,
    total: u64,
    templates: usize,
    entries: usize,
)
    requires { header_words ≤ length words.old }
    ensures { words.new ≡ overwritten words.old (header_of header.limits (settled_figures header.figures cached
        dropped total templates entries)) }
{
    let Header { limits, figures } = header;
    let after = Header {
        limits,
        figures: HeaderFigures {
            cached: raised(figures.cached, cached),
            dropped: raised(figures.dropped, dropped),
            total,
            templates: templates as u64,
            entries: entries as u64,
            chance: 0,
        },
    };
    after.write(words);
}
