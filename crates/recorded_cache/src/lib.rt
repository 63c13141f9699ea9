// The recorded calls on a cache (oracle/README.md, "Cache"): reading a row, making its call, and comparing its list
// with the areas.
#![tactic(auto)]

mod bodies;
mod calls;
mod held;
mod offers;
mod rows;

pub use calls::{Answered, run_call};
pub use held::Held;
pub use offers::{KEPT, Offer, Offered};
pub use rows::{Call, Row, read_row};
