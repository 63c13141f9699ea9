// Runs document 01's cache cases, marked P or not, on the code. A line has the call, its answer (0 or the number, then
// what it gives), and the figures after it: templates, bodies, bytes, cached, dropped, handed out.
#![tactic(auto)]

use answer_numbers::number_of;
use config::PendingFlowsConfig;
use pending_calls::clear;
use pending_drain::drain;
use pending_flows::open;
use pending_handed_out::read_handed_out;
use pending_offer::cache;
use pending_queries::{take_figures, would_accept};
use pending_resize::resize;
use pending_restore::restore_replay_suffix;

// The offered bodies are parts of these bytes, each of which is its place.
const BODY: [u8; 16] = [0, 1, 2, 3, 4, 5, 6, 7, 8, 9, 10, 11, 12, 13, 14, 15];

// Prints a call's number: 0, or that of its refusal.
fn print_number<E: Into<u32>>(rt: &impl Print, answer: Result<(), E>) {
    let _ = print!(rt; " {}", number_of(answer));
}

// Prints 0 and a count of bodies, or the number of the refusal.
fn print_count<E: Into<u32>>(rt: &impl Print, answer: Result<usize, E>) {
    let _ = match answer {
        Ok(count) => print!(rt; " 0 {count}"),
        Err(refusal) => print!(rt; " {}", number_of(Err(refusal))),
    };
}

// Prints the name of a call that takes limits, and these, but the TTL.
fn print_limits(rt: &impl Print, call: &str, config: PendingFlowsConfig) {
    let templates = config.max_pending_flows;
    let bodies = config.max_entries_per_template;
    let entry = config.max_entry_size_bytes;
    let total = config.max_total_bytes;
    let _ = print!(rt; "{call} {templates} {bodies} {entry} {total}:");
}

// The two areas of a cache.
#[derive(Drop)]
struct Areas {
    words: [u64; 132],
    bytes: [u8; 16],
}

impl Areas {
    // Areas that hold no cache.
    fn new() -> Self {
        Areas {
            words: [0; 132],
            bytes: [0; 16],
        }
    }

    // Ends a line with the figures.
    fn end_line(&self, rt: &impl Print) {
        let _ = match take_figures(&self.words, &self.bytes) {
            Ok(now) => println!(rt;
                " | {} {} {} {} {} {}",
                now.templates, now.bodies, now.bytes, now.cached, now.dropped, now.handed
            ),
            Err(damaged) => println!(rt; " | {}", u32::from(damaged)),
        };
    }

    // New areas with a cache of these limits.
    fn opened(rt: &impl Print, config: PendingFlowsConfig) -> Self {
        let mut areas = Areas::new();
        print_limits(rt, "open", config);
        print_number(rt, open(config, &mut areas.words, &areas.bytes));
        areas.end_line(rt);
        areas
    }

    // Offers a body.
    fn offer(&mut self, rt: &impl Print, id: u16, body: &[u8], clock: u64) {
        let _ = print!(rt; "offer {id} {} {clock}:", body.len());
        print_number(rt, cache(&mut self.words, &mut self.bytes, id, body, clock));
        self.end_line(rt);
    }

    // Asks whether a body would be accepted.
    fn ask(&self, rt: &impl Print, id: u16, len: usize, clock: u64) {
        let _ = print!(rt; "would_accept {id} {len} {clock}:");
        let _ = match would_accept(&self.words, &self.bytes, id, len, clock) {
            Ok(true) => rt.print(" yes"),
            Ok(false) => rt.print(" no"),
            Err(damaged) => print!(rt; " {}", u32::from(damaged)),
        };
        self.end_line(rt);
    }

    // Drains an id.
    fn drain(&mut self, rt: &impl Print, id: u16, clock: u64) {
        let _ = print!(rt; "drain {id} {clock}:");
        print_count(rt, drain(&mut self.words, &self.bytes, id, clock));
        self.end_line(rt);
    }

    // Prints the length of handed-out body k, its first byte and its last.
    fn read(&self, rt: &impl Print, k: usize) {
        let body = read_handed_out(&self.words, &self.bytes, k);
        let _ = print!(rt; "handed out {k}: {}", body.len());
        if let (Some(first), Some(last)) = (body.first(), body.last()) {
            let _ = print!(rt; " {first} {last}");
        }
        self.end_line(rt);
    }

    // Puts the last n bodies back.
    fn put_back(&mut self, rt: &impl Print, id: u16, n: usize) {
        let _ = print!(rt; "put back {id} {n}:");
        print_number(
            rt,
            restore_replay_suffix(&mut self.words, &self.bytes, id, n),
        );
        self.end_line(rt);
    }

    // Resizes the cache.
    fn resize(&mut self, rt: &impl Print, config: PendingFlowsConfig) {
        print_limits(rt, "resize", config);
        print_count(rt, resize(&mut self.words, &mut self.bytes, config));
        self.end_line(rt);
    }

    // Clears the cache.
    fn clear(&mut self, rt: &impl Print) {
        let _ = rt.print("clear:");
        print_number(rt, clear(&mut self.words, &self.bytes));
        self.end_line(rt);
    }
}

// Limits in document 01's order.
fn limits(
    templates: usize,
    bodies: usize,
    entry: usize,
    total: usize,
    ttl: Option<u64>,
) -> PendingFlowsConfig {
    PendingFlowsConfig {
        max_pending_flows: templates,
        max_entries_per_template: bodies,
        max_entry_size_bytes: entry,
        max_total_bytes: total,
        ttl,
    }
}

// Document 01's first case, to its last figure; then what was handed out is read, and put back.
fn eviction_and_age(rt: &impl Print) {
    let mut areas = Areas::opened(rt, limits(2, 2, 10, 16, Some(100)));
    areas.offer(rt, 300, &BODY[..6], 0);
    areas.offer(rt, 301, &BODY[..8], 1);
    areas.offer(rt, 300, &BODY[..4], 2);
    areas.offer(rt, 302, &BODY[..4], 3);
    areas.offer(rt, 300, &BODY[..1], 4);
    areas.offer(rt, 300, &BODY[..1], 5);
    areas.ask(rt, 300, 1, 102);
    areas.offer(rt, 300, &BODY[5..6], 102);
    areas.drain(rt, 300, 104);
    areas.read(rt, 0);
    areas.read(rt, 1);
    areas.put_back(rt, 301, 1);
    areas.put_back(rt, 300, 2);
    areas.put_back(rt, 300, 0);
    areas.put_back(rt, 300, 1);
}

// A "no" of `would_accept` is no bar.
fn no_is_no_bar(rt: &impl Print) {
    let mut areas = Areas::opened(rt, limits(1, 1, 10, 10, None));
    areas.offer(rt, 300, &BODY[..6], 0);
    areas.ask(rt, 300, 5, 1);
    areas.offer(rt, 300, &BODY[..5], 1);
}

// The list that document 01 gives to `pendlist`.
fn listed(rt: &impl Print) {
    let mut areas = Areas::opened(rt, limits(2, 2, 10, 16, Some(100)));
    areas.offer(rt, 300, &BODY[..6], 0);
    areas.offer(rt, 301, &BODY[..8], 1);
    areas.offer(rt, 300, &BODY[..4], 2);
    areas.drain(rt, 301, 3);
    areas.read(rt, 0);
}

// A wrong reading: pruning before step 2 would save 301.
fn pruning_first(rt: &impl Print) {
    let mut areas = Areas::opened(rt, limits(2, 2, 10, 10, Some(100)));
    areas.offer(rt, 301, &BODY[..4], 50);
    areas.offer(rt, 300, &BODY[..6], 1);
    areas.offer(rt, 300, &BODY[..5], 101);
}

// A wrong reading: promoting on 20 would save 300.
fn promotion_on_20(rt: &impl Print) {
    let mut areas = Areas::opened(rt, limits(2, 1, 10, 16, None));
    areas.offer(rt, 300, &BODY[..1], 0);
    areas.offer(rt, 301, &BODY[..1], 1);
    areas.offer(rt, 300, &BODY[..1], 2);
    areas.offer(rt, 302, &BODY[..1], 3);
    areas.drain(rt, 300, 4);
}

// A wrong reading: an age equal to the TTL as live.
fn age_of_the_ttl(rt: &impl Print) {
    let mut areas = Areas::opened(rt, limits(1, 1, 10, 10, Some(100)));
    areas.offer(rt, 300, &BODY[..1], 0);
    areas.ask(rt, 300, 2, 99);
    areas.ask(rt, 300, 2, 100);
    areas.offer(rt, 300, &BODY[..2], 100);
}

// 6 keeps the chance and an offer ends it; the Rust loses a body by the put-back that is refused here.
fn chance_ended(rt: &impl Print) {
    let mut areas = Areas::opened(rt, limits(1, 1, 2, 2, None));
    areas.offer(rt, 300, &BODY[..2], 0);
    areas.drain(rt, 300, 0);
    areas.offer(rt, 300, &BODY[..3], 0);
    areas.read(rt, 0);
    areas.offer(rt, 300, &BODY[..1], 0);
    areas.put_back(rt, 300, 1);
}

// Bodies of length 0, bodies that fill the byte area to its end, bodies that move; limits refused and taken; a clear.
fn ends_and_limits(rt: &impl Print) {
    let mut areas = Areas::opened(rt, limits(3, 3, 16, 16, None));
    areas.offer(rt, 300, &BODY[..0], 0);
    areas.offer(rt, 301, &BODY[..9], 0);
    areas.offer(rt, 302, &BODY[..7], 0);
    areas.offer(rt, 302, &BODY[..0], 0);
    areas.drain(rt, 301, 0);
    areas.offer(rt, 303, &BODY[7..16], 0);
    areas.drain(rt, 302, 0);
    areas.read(rt, 0);
    areas.drain(rt, 303, 0);
    areas.read(rt, 0);
    areas.put_back(rt, 303, 1);
    areas.resize(rt, limits(0, 0, 0, 0, None));
    areas.resize(rt, limits(3, 0, 0, 0, None));
    areas.resize(rt, limits(3, 3, 0, 1, None));
    areas.resize(rt, limits(3, 3, 2, 1, None));
    areas.resize(rt, limits(1025, 1, 1, 1, None));
    areas.resize(rt, limits(2, 1, 9, 9, Some(0)));
    areas.resize(rt, limits(2, 2, 9, 12, None));
    areas.offer(rt, 304, &BODY[..9], 0);
    areas.drain(rt, 304, 0);
    areas.clear(rt);
    areas.put_back(rt, 304, 1);
}

// Areas that hold no cache.
fn damaged(rt: &impl Print) {
    let mut areas = Areas::new();
    areas.drain(rt, 300, 0);
    areas.clear(rt);
}

fn main(rt: HostRuntime) {
    damaged(&rt);
    eviction_and_age(&rt);
    no_is_no_bar(&rt);
    listed(&rt);
    pruning_first(&rt);
    promotion_on_20(&rt);
    age_of_the_ttl(&rt);
    chance_ended(&rt);
    ends_and_limits(&rt);
}
