// One record at a time: it is taken off its place, or added behind the others; the index follows (docs/LAYOUT.md).
#![tactic(auto)]

mod adding;
mod taking;

pub use adding::add_record;
pub use taking::{Taken, take_record};
