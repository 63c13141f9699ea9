// The header of a cache: its limits and its figures.
ghost use Rattle.std.specs.Prelude.{◌≡◌, ◌≤◌, false, length, MatchResult};
ghost use Rattle.areas.specs.Overwrite.{overwritten};
ghost use Rattle.config.specs.Limits.{header_words};
ghost use Rattle.table.specs.WellFormed.{well_formed};
ghost use Rattle.pending_flows.specs.Header.{header_at, words_of, HoldsCache};

use config::PendingFlowsConfig;
use table::{CACHED, CHANCE_COUNT, DROPPED, Damaged, ENTRY_COUNT, HELD_COUNT, TOTAL, limits_at};
use table_watch::Sought;

// The header's words behind the limits.
#[derive(Clone, Copy)]
pub struct HeaderFigures {
    pub cached: u64,
    pub dropped: u64,
    pub total: u64,
    // how many templates are held, how many entries there are, and whether one more template is handed out
    pub templates: u64,
    pub entries: u64,
    pub chance: u64,
}

// What the header says.
// Functions take it beside the areas, with `HoldsCache`: a struct of the three would have to keep that while a call
// writes the words.
#[derive(Clone, Copy)]
pub struct Header {
    pub limits: PendingFlowsConfig,
    pub figures: HeaderFigures,
}

impl Header {
    // The header that the words hold.
    // The words, no array of the header's alone: what is promised is of all the words.
    pub fn read(words: &[u64]) -> Self
        requires { header_words ≤ length words.now }
        ensures { result ≡ header_at words.now }
    {
        let limits = limits_at(words);
        let figures = HeaderFigures {
            cached: words[CACHED],
            dropped: words[DROPPED],
            total: words[TOTAL],
            templates: words[HELD_COUNT],
            entries: words[ENTRY_COUNT],
            chance: words[CHANCE_COUNT],
        };
        Header { limits, figures }
    }

    // The header of the cache that the areas hold, or that they hold none.
    #[tactic(auto, using(crate::proofs::Questions::seen_damaged, crate::proofs::Questions::seen_legal, crate::proofs::Questions::header_within, crate::proofs::Questions::header_read))]
    pub fn of_cache(words: &[u64], bytes: &[u8]) -> Result<Self, Damaged>
        ensures { MatchResult result (λ header. HoldsCache header words.now (length bytes.now))
            (λ _. well_formed words.now (length bytes.now) ≡ false) }
    {
        table_check::examine(words, bytes.len(), Sought::Nothing)?;
        Ok(Header::read(words))
    }

    // Writes it to the front of the words.
    // The words, no array of the header's alone: what is promised is of all the words.
    #[tactic(auto, using(crate::proofs::Openings::header_written))]
    pub fn write(self, words: &mut [u64])
        requires { header_words ≤ length words.old }
        ensures { words.new ≡ overwritten words.old (words_of self) }
    {
        let Header { limits, figures } = self;
        let ttl = limits.ttl;
        let header = [
            limits.max_pending_flows as u64,
            limits.max_entries_per_template as u64,
            limits.max_entry_size_bytes as u64,
            limits.max_total_bytes as u64,
            ttl.is_some() as u64,
            ttl.unwrap_or(0),
            figures.cached,
            figures.dropped,
            figures.total,
            figures.templates,
            figures.entries,
            figures.chance,
        ];
        areas::copy_to_front(words, &header);
    }
}
