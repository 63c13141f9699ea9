// The calls of a recorded list. Each answers with document 01's number and a value.
use super::bodies::{LONGEST, fill_body};
use super::rows::Call;
use config::PendingFlowsConfig;
use pending_calls::clear;
use pending_drain::drain;
use pending_flows::open;
use pending_handed_out::{PlaceRefusal, place_handed_out, read_handed_out};
use pending_offer::cache;
use pending_queries::would_accept;
use pending_resize::resize;
use pending_restore::restore_replay_suffix;
use table::ttl_of;

// An answer, as the list has it.
// A number beside a value, as a recorded row has them: of calls whose refusals are of different types.
#[derive(Clone, Copy)]
pub struct Answered {
    pub number: u64,
    pub value: u64,
}

// The answer to what is no call, and to an offer that would be longer than any: no call answers with this number, but a
// row may have it, and is then compared with the areas like every other.
const NO_CALL: Answered = Answered {
    number: 99,
    value: 0,
};

// The answer of a call that tells a value: 0 with it, or the refusal's number.
fn told<E>(answer: Result<u64, E>) -> Answered
where
    u32: From<E>,
{
    match answer {
        Ok(value) => Answered { number: 0, value },
        Err(refusal) => Answered {
            number: u32::from(refusal) as u64,
            value: 0,
        },
    }
}

// A template id of a row.
fn id_of(n: u64) -> u16 {
    (n % 65536) as u16
}

// The limits of a row, in document 01's order.
fn limits_of(args: [u64; 8]) -> PendingFlowsConfig {
    PendingFlowsConfig {
        max_pending_flows: args[0] as usize,
        max_entries_per_template: args[1] as usize,
        max_entry_size_bytes: args[2] as usize,
        max_total_bytes: args[3] as usize,
        ttl: ttl_of(args[4], args[5]),
    }
}

// Offers the body of offer k; no answer where it would be longer than any.
fn run_offer(words: &mut [u64], bytes: &mut [u8], args: [u64; 8], k: u64) -> Option<Answered> {
    let mut room = [0u8; LONGEST];
    let body = room.get_mut(..args[1] as usize)?;
    fill_body(body, k);
    let answer = cache(words, bytes, id_of(args[0]), body, args[2]);
    Some(told(answer.map(|()| 0)))
}

// The length of a handed-out body, as it is read.
fn read_len(words: &[u64], bytes: &[u8], k: usize) -> Result<u64, PlaceRefusal> {
    place_handed_out(words, bytes, k)?;
    Ok(read_handed_out(words, bytes, k).len() as u64)
}

// Makes a call; an offer is that of body k. What is no call, and an offer that is too long, is answered too.
pub fn run_call(
    words: &mut [u64],
    bytes: &mut [u8],
    call: Option<Call>,
    args: [u64; 8],
    k: u64,
) -> Answered {
    let Some(call) = call else {
        return NO_CALL;
    };
    let id = id_of(args[0]);
    match call {
        Call::Open => told(open(limits_of(args), words, bytes).map(|()| 0)),
        Call::Offer => run_offer(words, bytes, args, k).unwrap_or(NO_CALL),
        Call::Drain => told(drain(words, bytes, id, args[1]).map(|count| count as u64)),
        Call::PutBack => {
            told(restore_replay_suffix(words, bytes, id, args[1] as usize).map(|()| 0))
        }
        Call::Resize => told(resize(words, bytes, limits_of(args)).map(|count| count as u64)),
        Call::Clear => told(clear(words, bytes).map(|()| 0)),
        Call::WouldAccept => {
            told(would_accept(words, bytes, id, args[1] as usize, args[2]).map(|yes| yes as u64))
        }
        Call::Read => told(read_len(words, bytes, args[0] as usize)),
    }
}
