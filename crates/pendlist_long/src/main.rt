// The program `pendlist` once more, since a crate has one input to be tried on: here a long list that
// `oracle record-pendlist` wrote, whose table is the Rust's. A second `c` ends it with `bad`.
#![tactic(auto)]

use std::io;

fn main(rt: HostRuntime) {
    pendlist_run::run(&mut rt.reader(), &mut io::writer(&rt));
}
