// Copying into the lent areas and moving within them, over one set of definitions and laws: elements of any kind to the
// front, to a place, and from any place to another, and bytes to a lower place by blocks through an array.
#![tactic(auto)]

mod copying;
mod moving;

pub use copying::{copy_to_front, write_at};
pub use moving::{move_bytes_down, move_within};
