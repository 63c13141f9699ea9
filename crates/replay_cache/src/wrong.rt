// Rows that are wrong on purpose, one part of each: a comparison that notices nothing would show.
use super::replay::{begin, print_replay, run_rows};
use recorded_cache::Offered;

// A wrong number, a wrong value, and each figure wrong; a row cut short, and a row that goes on.
fn run_wrong_answers(rt: &impl Print) {
    let mut words = [0u64; 160];
    let mut bytes = [0u8; 64];
    let mut offered = Offered::new();
    let rows = b"0 2 3 8 32 0 0 64 160 0 0 0 0 0 0 0 0 1\n\
        1 300 4 0 20 0 1 1 4 1 0 0 1 300 1 0\n\
        2 300 0 0 2 0 0 0 1 0 1 1 0\n\
        6 300 1 0 0 1 1 0 0 1 0 1 0\n\
        6 300 1 0 0 1 0 1 0 1 0 1 0\n\
        6 300 1 0 0 1 0 0 1 1 0 1 0\n\
        6 300 1 0 0 1 0 0 0 0 0 1 0\n\
        6 300 1 0 0 1 0 0 0 1 1 1 0\n\
        6 300 1 0 0 1 0 0 0 1 0 0 0\n\
        6 300 1 0 0 1 0 0 0 1 0 1\n\
        6 300 1 0 0 1 0 0 0 1 0 1 0 0\n";
    print_replay(
        rt,
        run_rows(rt, &mut words, &mut bytes, &mut offered, rows, begin()),
    );
}

// Lists with an offer missing, an offer that was not made, and one too many; with bodies swapped that differ in their
// bytes alone or in their clock readings alone; with templates swapped; with a wrong id, a wrong count, a template
// missing; with handed-out bodies swapped.
fn run_wrong_lists(rt: &impl Print) {
    let mut words = [0u64; 160];
    let mut bytes = [0u8; 64];
    let mut offered = Offered::new();
    let rows = b"0 2 3 8 32 0 0 64 160 0 0 0 0 0 0 0 0 1\n\
        1 300 4 0 0 0 1 1 4 1 0 0 1 300 1 0\n\
        6 300 1 0 0 1 1 1 4 1 0 0 1 300 1\n\
        6 300 1 0 0 1 1 1 4 1 0 0 1 300 1 1\n\
        1 300 4 0 0 0 1 2 8 2 0 0 1 300 2 1 0\n\
        1 301 4 0 0 0 2 3 12 3 0 0 1 301 1 2 300 2 0 1\n\
        6 300 1 0 0 1 2 3 12 3 0 0 1 300 2 0 1 301 1 2\n\
        6 300 1 0 0 1 2 3 12 3 0 0 1 302 2 0 1 301 1 2\n\
        6 300 1 0 0 1 2 3 12 3 0 0 1 300 1 0 301 1 2\n\
        6 300 1 0 0 1 2 3 12 3 0 0 1 300 2 0 1 301 1 2 3\n\
        6 300 1 0 0 1 2 3 12 3 0 0 1 300 2 0 1\n\
        1 301 0 5 0 0 2 4 12 4 0 0 1 300 2 0 1 301 2 2 3\n\
        1 301 0 6 0 0 2 5 12 5 0 0 1 300 2 0 1 301 3 2 4 3\n\
        2 300 6 0 2 1 3 4 5 0 2 1 301 3 2 3 4 1 0\n\
        7 1 0 4 1 3 4 5 0 2 1 301 3 2 3 4 0 1\n";
    print_replay(
        rt,
        run_rows(rt, &mut words, &mut bytes, &mut offered, rows, begin()),
    );
}

// Runs the wrong rows, and right ones among them.
pub fn run_wrong_rows(rt: &impl Print) {
    run_wrong_answers(rt);
    run_wrong_lists(rt);
}
