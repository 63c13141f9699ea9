// The offer.
ghost use Rattle.std.specs.Prelude.{◌≡◌, true, false, length};
ghost use Rattle.table.specs.Table.{table_of};
ghost use Rattle.cache_model.specs.Cache.{done, number};
ghost use Rattle.cache_model.specs.Offer.{offered};
ghost use Rattle.pending_flows.specs.View.{areas_of, cache_of};
ghost use Rattle.pending_calls.specs.Promises.{Does};
ghost use Rattle.offer_plan.specs.Plan.{Plans, live_bodies};
ghost use Rattle.pending_offer.specs.Promises.{body_of, offer_number, FitsEntry, Offers, DoesOffer};
ghost use Rattle.pending_offer.specs.declared.offering.OfferRefusal.TheVariants as OfferRefusal;

use offer_plan::{OfferPlan, plan_offer};
use offer_steps::{add_body, choose_label, count_drop, held_bodies, settle};
use packed_removal::remove_for_body;
use pending_flows::Header;
use planned_removal::remove_planned;
use table::{Damaged, records_at, records_in};
use table_watch::Sought;

// Why a body is not accepted. Number 21 is none of them: no offer can reach it.
#[derive(Clone, Copy, Debug, PartialEq, Eq)]
pub enum OfferRefusal {
    TooLong,
    TemplateFull,
    Damaged,
}

impl From<Damaged> for OfferRefusal {
    ghost from_gives = { λ _ refusal. refusal ≡ OfferRefusal.Damaged };

    fn from(_damaged: Damaged) -> OfferRefusal {
        OfferRefusal::Damaged
    }
}

// Document 01's number of a refusal.
impl From<OfferRefusal> for u32 {
    ghost from_gives = { λ refusal number. number ≡ offer_number refusal };

    fn from(refusal: OfferRefusal) -> u32 {
        match refusal {
            OfferRefusal::TooLong => 6,
            OfferRefusal::TemplateFull => 20,
            OfferRefusal::Damaged => 28,
        }
    }
}

// Stores a body that is accepted, with what its plan removes.
fn accept(
    words: &mut [u64],
    bytes: &mut [u8],
    header: Header,
    plan: OfferPlan,
    id: u16,
    body: &[u8],
    clock: u64,
)
    requires fits { FitsEntry header body.now words.old (length bytes.old) }
    requires plans { (Plans words.old bytes.old id (length body.now) clock plan) × (plan.full ≡ false) }
    ensures { Does (offered id (body_of body.now clock)) (cache_of (table_of words.old)
        bytes.old) (areas_of words.old bytes.old) done
        (areas_of words.new bytes.new) }
{
    let held = held_bodies(words, bytes, header);
    let left = remove_for_body(words, bytes, header, plan, clock, body.len());
    let records = records_in(words, records_at(header.limits), left.records);
    let label = choose_label(records, plan.label);
    add_body(
        words,
        bytes,
        header.limits,
        left,
        label,
        id as u64,
        body,
        clock,
    );
    let drops = held - (left.entries as u64);
    let total = left.bytes + (body.len() as u64);
    settle(
        words,
        header,
        1,
        drops,
        total,
        left.records + 1,
        left.entries + 1,
    );
}

// Turns a body down whose template is full, with what its plan removes.
fn turn_down(
    words: &mut [u64],
    bytes: &[u8],
    header: Header,
    plan: OfferPlan,
    id: u16,
    body: &[u8],
    clock: u64,
)
    requires fits { FitsEntry header body.now words.old (length bytes.now) }
    requires plans { (Plans words.old bytes.now id (length body.now) clock plan) × (plan.full ≡ true) }
    ensures { Does (offered id (body_of body.now clock)) (cache_of (table_of words.old)
        bytes.now) (areas_of words.old bytes.now) (number 20)
        (areas_of words.new bytes.now) }
{
    let held = held_bodies(words, bytes, header);
    // no label apart: the template is not promoted
    let none = None;
    let left = remove_planned(words, bytes, header, plan, clock, none);
    let drops = held - (left.entries as u64);
    settle(
        words,
        header,
        0,
        drops + 1,
        left.bytes,
        left.records,
        left.entries,
    );
}

// Offers a body that is not too long to a well-formed cache, in which the id has so many live bodies.
// Id, body and clock apart, as the call is given them: its steps need now one of them and now another.
fn offer_body(
    words: &mut [u64],
    bytes: &mut [u8],
    header: Header,
    id: u16,
    body: &[u8],
    clock: u64,
    live: usize,
) -> Result<(), OfferRefusal>
    requires fits { FitsEntry header body.now words.old (length bytes.old) }
    requires live_value { live ≡ live_bodies words.old id clock }
    ensures { DoesOffer id body.now clock (cache_of (table_of words.old) bytes.old)
        (areas_of words.old bytes.old) result (areas_of words.new bytes.new) }
{
    let len = body.len();
    let plan = plan_offer(words, bytes, header, id as u64, len, clock, live);
    if plan.full {
        turn_down(words, bytes, header, plan, id, body, clock);
        return Err(OfferRefusal::TemplateFull);
    }
    accept(words, bytes, header, plan, id, body, clock);
    Ok(())
}

// Offers a body: it is cached, or turned down. Either way other bodies may go.
pub fn cache(
    words: &mut [u64],
    bytes: &mut [u8],
    id: u16,
    body: &[u8],
    clock: u64,
) -> Result<(), OfferRefusal>
    ensures { Offers id body.now clock (areas_of words.old bytes.old) result
        (areas_of words.new bytes.new) }
{
    let sought = Sought::Live {
        id: id as u64,
        clock,
    };
    let seen = table_check::examine(words, bytes.len(), sought)?;
    let header = Header::read(words);
    if header.limits.max_entry_size_bytes < body.len() {
        count_drop(words);
        return Err(OfferRefusal::TooLong);
    }
    offer_body(words, bytes, header, id, body, clock, seen.live)
}
