// What an offer decides before anything is written: steps 2 to 5.
// Both areas are given, also where the words alone are read: what is asked is that the two hold a cache. They are two
// parameters, as some calls change the words alone.
ghost use Rattle.std.specs.Prelude.{◌≡◌, true, ◌≤◌, length, replicate};
ghost use Rattle.table.specs.Parts.{entries_of, templates_of};
ghost use Rattle.table.specs.Reads.{label_in};
ghost use Rattle.pending_flows.specs.Header.{HoldsCache};
ghost use Rattle.offer_plan.specs.Plan.{live_sums, live_found, live_bodies, LiveSeen};
ghost use Rattle.offer_plan.specs.Plan.{LiveRead, others_fill, first_evicted, first_of_full, Decides, NothingGoes};
ghost use Rattle.offer_plan.specs.Plan.{none_expires, skip_of, Plans};

use super::evictions::evictions_for;
use super::live_tests::live_test;
use config::{ENTRY_WORDS, PendingFlowsConfig, RECORD_WORDS};
use pending_flows::Header;
use table::{LABELS, TemplateRecord, count_in, first_label, record_of};
use table_entries::{stays, sums_by_label};
use table_records::{SKIP_ALL, first_live, live_records, set_sum, skip_records};

// What an offer decides: whether the template is full (20), the id's label where the id is held, whether expired bodies
// of all ids go or only the id's, whether it is certain that nothing goes, whether it is certain that no body goes as
// expired, how many least recent templates go for their bytes, and the label of the one that goes for room, if one does.
// Flags, no enum: `none` and `none_expired` each go with several decisions, and each flag is asked about alone.
#[derive(Clone, Copy)]
pub struct OfferPlan {
    pub full: bool,
    pub label: Option<u64>,
    pub all: bool,
    pub none: bool,
    pub none_expired: bool,
    pub evicted: usize,
    pub first: Option<u64>,
}

// What is decided by the templates that step 2 leaves.
enum Decision {
    // the id's template is full
    Full,
    // there is room: of other ids nothing goes
    Room,
    // there is none for a new id: expired bodies of all ids go, and the template of this label, if one is told
    NoRoom(Option<u64>),
}

// How many live bodies the record that was found has, where the id has so many.
fn live_found(found: Option<TemplateRecord>, live: usize) -> usize
    ensures { result ≡ live_found live found }
{
    found.map_or(0, |_| live)
}

// Whether the records but the one that was found are as many as there may be.
#[tactic(auto, using(crate::proofs::Live::found_fills, crate::proofs::Live::none_fills))]
fn others_fill(found: Option<TemplateRecord>, records: usize, most: usize) -> bool
    ensures { result ≡ others_fill (label_in found) records most }
{
    match found {
        Some(_) => most < records,
        None => most <= records,
    }
}

// The label of the least recent template with live bodies, where those templates are as many as there may be.
fn first_evicted(records: &[[u64; RECORD_WORDS]], most: usize, live: &[u32; LABELS]) -> Option<u64>
    ensures { result ≡ first_evicted most live.now (templates_of records.now) }
{
    if live_records(records, live) < most {
        return None;
    }
    first_live(records, live)
}

// The label of the least recent template, where the templates are as many as there may be.
fn first_of_full(records: &[[u64; RECORD_WORDS]], most: usize) -> Option<u64>
    ensures { result ≡ first_of_full most (templates_of records.now) }
{
    if records.len() < most {
        return None;
    }
    first_label(records)
}

// The same by the entries, whose live bodies are summed for it. With no time to live every template has some.
#[tactic(auto, using(crate::proofs::Steps::oldest_of_all, crate::proofs::Steps::oldest_found))]
fn oldest_evicted(
    limits: PendingFlowsConfig,
    entries: &[[u64; ENTRY_WORDS]],
    records: &[[u64; RECORD_WORDS]],
    clock: u64,
) -> Option<u64>
    requires { LiveRead limits.ttl clock (templates_of records.now) (entries_of entries.now) }
    ensures { result ≡ first_evicted limits.max_pending_flows (live_sums limits.ttl clock (entries_of entries.now))
        (templates_of records.now) }
{
    let ttl = limits.ttl;
    let Some(_) = ttl else {
        return first_of_full(records, limits.max_pending_flows);
    };
    let test = live_test(ttl, clock);
    let mut live = [0u32; LABELS];
    sums_by_label(entries, |entry| stays(test, entry).then_some(1), &mut live);
    first_evicted(records, limits.max_pending_flows, &live)
}

// Steps 3 to 5, by the records that step 2 leaves, the id's live bodies, and the entries: those of other ids are looked
// at only where a new id finds no room.
fn decide(
    limits: PendingFlowsConfig,
    entries: &[[u64; ENTRY_WORDS]],
    records: &[[u64; RECORD_WORDS]],
    id: u64,
    clock: u64,
    live: usize,
) -> Decision
    requires live_read { LiveRead limits.ttl clock (templates_of records.now) (entries_of entries.now) }
    requires live_seen { LiveSeen id live limits.ttl clock (templates_of records.now) (entries_of entries.now) }
    ensures { Decides limits id (live_sums limits.ttl clock (entries_of entries.now)) (templates_of records.now) result }
{
    let found = record_of(records, id);
    let here = live_found(found, live);
    if 0 < here {
        if limits.max_entries_per_template <= here {
            return Decision::Full;
        }
        return Decision::Room;
    }
    if others_fill(found, records.len(), limits.max_pending_flows) {
        return Decision::NoRoom(oldest_evicted(limits, entries, records, clock));
    }
    Decision::Room
}

// Whether it is certain that no body goes: no template is evicted, nothing is handed out, only the id's bodies can go
// as expired, and none does.
fn nothing_goes(evicted: usize, chance: u64, all: bool, none_expired: bool) -> bool
    ensures { result ≡ true → NothingGoes evicted chance all none_expired }
{
    evicted == 0 && chance == 0 && !all && none_expired
}

// Whether it is certain that no body goes as expired: with no time to live, or where only the id's bodies can and as
// many of them are live as its record counts.
#[tactic(auto, unfolding(crate::specs::Plan::none_expires))]
fn none_expires(ttl: Option<u64>, all: bool, count: u64, live: usize) -> bool
    ensures { result ≡ none_expires ttl all count live }
{
    ttl.is_none() || !all && count == (live as u64)
}

// What an offer of a body of this length decides, where the id has so many live bodies.
// The clause on the length is that of `evictions_for`.
pub fn plan_offer(
    words: &[u64],
    bytes: &[u8],
    header: Header,
    id: u64,
    len: usize,
    clock: u64,
    live: usize,
) -> OfferPlan
    requires header_value { HoldsCache header words.now (length bytes.now) }
    requires len_value { len ≤ header.limits.max_total_bytes }
    requires live_value { live ≡ live_bodies words.now id clock }
    ensures { Plans words.now bytes.now id len clock result }
{
    let Header { limits, figures } = header;
    let evicted = evictions_for(words, bytes, header, len);
    let (held, _) = header.templates(words);
    let entries = header.entries(words);
    let (_, stay) = held.split_at(evicted);
    let (full, all, first) = match decide(limits, entries, stay, id, clock, live) {
        Decision::Full => (true, false, None),
        Decision::Room => (false, false, None),
        Decision::NoRoom(first) => (false, true, first),
    };
    let own = record_of(held, id);
    let ttl = limits.ttl;
    let none_expired = none_expires(ttl, all, count_in(own), live);
    OfferPlan {
        full,
        label: own.map(|template| template.label),
        all,
        none: nothing_goes(evicted, figures.chance, all, none_expired),
        none_expired,
        evicted,
        first,
    }
}

// Sets in `skip` how many of each label's oldest bodies go by a plan.
pub fn skip_planned(
    words: &[u64],
    bytes: &[u8],
    header: Header,
    plan: OfferPlan,
    skip: &mut [u32; LABELS],
)
    requires header_value { HoldsCache header words.now (length bytes.now) }
    requires skip_value { skip.old ≡ replicate 1024 0 }
    ensures { skip.new ≡ skip_of words.now plan }
{
    let (held, handed) = header.templates(words);
    skip_records(&held[..plan.evicted.min(held.len())], skip);
    skip_records(handed, skip);
    if let Some(label) = plan.first {
        set_sum(skip, label, SKIP_ALL);
    }
}
