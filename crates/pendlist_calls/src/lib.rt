// One line of a list, carried out on the lent areas (document 01, "Cases"). They are two parameters: some calls change
// the words alone.
#![tactic(auto)]

ghost use Rattle.std.specs.Prelude.{◌≡◌, length};
ghost use Rattle.pendlist_commands.specs.declared.Command.TheVariants as Says;
ghost use Rattle.pendlist_input.specs.Body.{ramp};
ghost use Rattle.cache_model.specs.Offer.{offered};
ghost use Rattle.pending_flows.specs.View.{areas_of, view};
ghost use Rattle.pending_calls.specs.Promises.{Performs};
ghost use Rattle.pending_offer.specs.Promises.{body_of, offer_answer};
ghost use Rattle.pending_drain.specs.Promises.{drain_answer};
ghost use Rattle.pendlist_calls.specs.Steps.{figure_of, row_after, Steps, RunsLine};

use answer_numbers::number_of;
use config::PendingFlowsConfig;
use pending_drain::drain;
use pending_flows::open;
use pending_offer::{OfferRefusal, cache};
use pending_queries::take_figures;
use pendlist_commands::{Command, DrainLine, OfferLine};
use pendlist_input::fill_body;
use pendlist_lines::{in_order, parse_line};
use pendlist_rows::{Outcome, Row};
use table::Damaged;

// The row of a call, with the figures after it.
fn row_after(words: &[u64], bytes: &[u8], call: u8, answer: u64) -> Outcome
    ensures { result ≡ row_after call answer (view (areas_of words.now bytes.now)) }
{
    let Ok(figures) = take_figures(words, bytes) else {
        return Outcome::Bad;
    };
    Outcome::Told(Row {
        call,
        answer,
        held: figures.bodies,
        bytes: figures.bytes,
        cached: figures.cached,
        dropped: figures.dropped,
    })
}

// `c`: opens the cache.
#[tactic(auto, unfolding(crate::specs::Steps::step_of))]
fn run_open(words: &mut [u64], bytes: &[u8], config: PendingFlowsConfig) -> Outcome
    ensures { Steps (Some (Says.Open config)) (areas_of words.old bytes.now) result
        (areas_of words.new bytes.now) }
{
    match open(config, words, bytes) {
        Ok(()) => Outcome::Opened,
        Err(_) => Outcome::Bad,
    }
}

// An offer's answer in the table: 0, or its number.
fn offer_figure(answer: Result<(), OfferRefusal>) -> u64
    ensures { result ≡ figure_of (offer_answer answer) }
{
    number_of(answer) as u64
}

// Fills a body and offers it.
#[tactic(auto, using(crate::proofs::Stepping::filled_offered))]
fn offer_filled(
    words: &mut [u64],
    bytes: &mut [u8],
    id: u16,
    body: &mut [u8],
    clock: u64,
) -> Result<(), OfferRefusal>
    ensures { Performs (offered id (body_of (ramp 0 (length body.old)) clock))
        (areas_of words.old bytes.old) (offer_answer result)
        (areas_of words.new bytes.new) }
{
    fill_body(body);
    cache(words, bytes, id, body, clock)
}

// The longest body that a line offers.
const LONGEST: usize = 65535;

// Offers a body of the line's length.
fn offer_line(words: &mut [u64], bytes: &mut [u8], line: OfferLine) -> Result<(), OfferRefusal>
    ensures { Performs (offered line.id (body_of (ramp 0 line.len) line.clock))
        (areas_of words.old bytes.old) (offer_answer result)
        (areas_of words.new bytes.new) }
{
    let mut room = [0; LONGEST];
    let len = line.len as usize;
    offer_filled(words, bytes, line.id, &mut room[..len], line.clock)
}

// `o`: offers a body.
#[tactic(auto, unfolding(crate::specs::Steps::step_of))]
fn run_offer(words: &mut [u64], bytes: &mut [u8], line: OfferLine) -> Outcome
    ensures { Steps (Some (Says.Offer line)) (areas_of words.old bytes.old) result
        (areas_of words.new bytes.new) }
{
    let answer = offer_line(words, bytes, line);
    row_after(words, bytes, b'o', offer_figure(answer))
}

// A drain's answer in the table: how many bodies are handed out, or the number.
fn drain_figure(answer: Result<usize, Damaged>) -> u64
    ensures { result ≡ figure_of (drain_answer answer) }
{
    match answer {
        Ok(count) => count as u64,
        Err(damaged) => u32::from(damaged) as u64,
    }
}

// `d`: drains a template.
#[tactic(auto, unfolding(crate::specs::Steps::step_of))]
fn run_drain(words: &mut [u64], bytes: &[u8], line: DrainLine) -> Outcome
    ensures { Steps (Some (Says.Drain line)) (areas_of words.old bytes.now) result
        (areas_of words.new bytes.now) }
{
    let answer = drain(words, bytes, line.id, line.clock);
    row_after(words, bytes, b'd', drain_figure(answer))
}

// Carries out a line, given without its newline and whether a cache is open.
#[tactic(auto, using(crate::proofs::Stepping::line_run), unfolding(crate::specs::Steps::step_of))]
pub fn run_line(words: &mut [u64], bytes: &mut [u8], opened: bool, line: &[u8]) -> Outcome
    ensures { RunsLine opened line.now (areas_of words.old bytes.old) result
        (areas_of words.new bytes.new) }
{
    let wanted = in_order(opened, parse_line(line));
    match wanted {
        Some(Command::Open(config)) => run_open(words, bytes, config),
        Some(Command::Offer(offer)) => run_offer(words, bytes, offer),
        Some(Command::Drain(drain)) => run_drain(words, bytes, drain),
        None => Outcome::Bad,
    }
}
