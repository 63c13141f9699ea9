// The template records of a table: what is chosen among them, sums by label, and storing one (docs/LAYOUT.md).
#![tactic(auto)]

mod choosing;
mod index;
mod keeping;
mod storing;
mod sums;

pub use choosing::{
    SKIP_ALL, evictions_of, first_live, free_label, live_records, skip_over, skip_records,
};
pub use index::{NOWHERE, close_index, position_told};
pub use keeping::count_whole;
pub use storing::put_record;
pub use sums::{capped_count, set_sum, sum_of};
