// Passes over the entries of a table: sums by label, the sweep, and packing (docs/LAYOUT.md).
#![tactic(auto)]

mod pack;
mod stay;
mod sums;
mod sweeps;

pub use pack::{Run, last_end, move_run, pack_bodies, run_up_to};
pub use stay::stays;
pub use sums::sums_by_label;
pub use sweeps::{Kept, move_entry, put_entry, sweep};

// Which bodies stay, each by itself: one that is expired goes, where its label is the only one that is aged or every
// label is, and one that is too large.
#[derive(Clone, Copy)]
pub struct StayTest {
    pub ttl: Option<u64>,
    pub clock: u64,
    pub only: Option<u64>,
    pub max_size: u64,
}
