// The cache's table in the lent words: a header, entries for bodies, records for templates (docs/LAYOUT.md).
#![tactic(auto)]

ghost use Rattle.std.specs.Prelude.{◌≡◌};

mod layout;
mod reads;

pub use layout::{
    CACHED, CHANCE_COUNT, DROPPED, ENTRY_COUNT, HELD_COUNT, INDEX, TOTAL, TTL_SET, entries_in,
    entry_at, entry_of, limits_at, record_at, records_at, records_in, template_of, ttl_of,
};
pub use reads::{count_in, count_of, first_label, label_number, label_of, live_figures, record_of};

// A body: its template's label, its place and length in the byte area, and the clock reading of its offer.
#[derive(Clone, Copy)]
pub struct Entry {
    pub label: u64,
    pub place: u64,
    pub len: u64,
    pub clock: u64,
}

// A template: its key (the id), its label, and how many bodies it has.
#[derive(Clone, Copy)]
pub struct TemplateRecord {
    pub key: u64,
    pub label: u64,
    pub count: u64,
}

// The lent areas hold no cache: number 28.
#[derive(Clone, Copy, Debug, PartialEq, Eq)]
pub struct Damaged;

// Document 01's number of it.
impl From<Damaged> for u32 {
    ghost from_gives = { λ _ number. number ≡ 28 };

    fn from(_damaged: Damaged) -> u32 {
        28
    }
}

// The bodies of a label that are not expired: how many, and their lengths together, which wrap.
#[derive(Clone, Copy)]
pub struct LiveFigures {
    pub bodies: usize,
    pub bytes: u64,
}

// Every label is below this.
pub const LABELS: usize = 1024;

// Where there are fewer templates than this, new ones have labels below it, so that a test clears less than for all.
pub const FEW_LABELS: usize = 32;
