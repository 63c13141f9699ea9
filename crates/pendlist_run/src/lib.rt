// The program `pendlist` of document 01: a list of calls on one cache, and the table of their answers. It reads
// standard input and writes standard output as it goes, in bounded memory.
#![tactic(auto)]

mod program;

pub use program::{Ended, run};
