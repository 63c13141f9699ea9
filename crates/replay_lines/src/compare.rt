// What the text of a row expects of a line, set against what the line says or comes to.
use config::PendingFlowsConfig;
use pendlist_commands::Command;
use pendlist_rows::{Outcome, Row};
use recorded::Numbers;

// A text's first numbers; 0 for those that it lacks.
// Beside `fill` of recorded_cache, which this program has no need of: that crate is of the list of the cache.
fn numbers_in(text: &[u8]) -> [u64; 5] {
    let mut values = [0u64; 5];
    for (value, number) in values.iter_mut().zip(Numbers { rest: text }) {
        *value = number;
    }
    values
}

// The limits in a text; with `-` there is no TTL.
fn limits_in(text: &[u8]) -> PendingFlowsConfig {
    let [templates, entries, size, total, ttl] = numbers_in(text);
    PendingFlowsConfig {
        max_pending_flows: templates as usize,
        max_entries_per_template: entries as usize,
        max_entry_size_bytes: size as usize,
        max_total_bytes: total as usize,
        ttl: (!text.contains(&b'-')).then_some(ttl),
    }
}

// A row of the table: this call, with a text's first numbers.
fn row_in(call: u8, text: &[u8]) -> Row {
    let [answer, held, bytes, cached, dropped] = numbers_in(text);
    Row {
        call,
        answer,
        held,
        bytes,
        cached,
        dropped,
    }
}

// Whether a line says what is expected: the text has its letter, wherever that stands, and first its numbers. A text
// with several letters is right for lines of each, so it is not read as one command.
pub fn same_reading(line: Option<Command>, expected: &[u8]) -> bool {
    match line {
        Some(Command::Open(limits)) => expected.contains(&b'c') && limits == limits_in(expected),
        Some(Command::Offer(offer)) => {
            let [id, len, clock, _, _] = numbers_in(expected);
            expected.contains(&b'o')
                && [offer.id as u64, offer.len as u64, offer.clock] == [id, len, clock]
        }
        Some(Command::Drain(drain)) => {
            let [id, clock, _, _, _] = numbers_in(expected);
            // `bad` has this letter too
            expected.contains(&b'd')
                && !expected.contains(&b'b')
                && [drain.id as u64, drain.clock] == [id, clock]
        }
        None => expected.contains(&b'b'),
    }
}

// Whether a line comes to what is expected, by letters and first numbers too. `bad` and `open` have letters that no row
// has: b and p.
pub fn same_outcome(outcome: Outcome, expected: &[u8]) -> bool {
    match outcome {
        Outcome::Opened => expected.contains(&b'p'),
        Outcome::Told(row) => {
            !expected.contains(&b'b')
                && !expected.contains(&b'p')
                && expected.contains(&row.call)
                && row == row_in(row.call, expected)
        }
        Outcome::Bad => expected.contains(&b'b'),
    }
}
