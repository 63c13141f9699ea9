// Reading recorded lists of calls and answers: lines of decimal numbers, a buffer at a time.
#![tactic(auto)]

mod chunk;
mod numbers;
mod tally;

pub use chunk::{BUFFER, BUFFERS, read_full, run_parts};
pub use numbers::Numbers;
pub use tally::Tally;
