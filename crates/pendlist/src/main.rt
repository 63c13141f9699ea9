// Reads a list of calls and writes the table of their answers (document 01, "Cases"). The list in stdin is document
// 01's; no newline stands behind its last line.
#![tactic(auto)]

use std::io;

fn main(rt: HostRuntime) {
    pendlist_run::run(&mut rt.reader(), &mut io::writer(&rt));
}
