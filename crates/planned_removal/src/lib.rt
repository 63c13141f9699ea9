// Removing what the plan of an offer removes (pending_flows.rs).
// Both areas are given, also where the words alone are read: what is asked is that the two hold a cache. They are two
// parameters, as some calls change the words alone.
#![tactic(auto)]

ghost use Rattle.std.specs.Prelude.{◌≡◌, Some, true, ℕ, length};
ghost use Rattle.table.specs.Reads.{label_or_none};
ghost use Rattle.pending_flows.specs.Header.{HoldsCache};
ghost use Rattle.offer_plan.specs.Plan.{plan_test};
ghost use Rattle.planned_removal.specs.Planned.{PlannedFor, PlannedAll, RemovesPlanned};
ghost use Rattle.planned_removal.specs.Alone.{GoesAlone, OnlyExpired};

use config::PendingFlowsConfig;
use offer_plan::{OfferPlan, skip_planned};
use pending_calls::{Removed, remove, remove_none, remove_whole, stay_all};
use pending_flows::{Header, HeaderFigures};
use table::{LABELS, first_label, label_number, records_at};
use table_entries::StayTest;
use template_removal::{remove_expired_of, remove_template};

// The test by which bodies stay.
fn stay_test(limits: PendingFlowsConfig, clock: u64, plan: OfferPlan) -> StayTest
    ensures { result ≡ plan_test limits clock plan }
{
    let only = (!plan.all).then(|| label_number(plan.label));
    StayTest::by_age(limits.ttl, clock, only)
}

// Sweeps by the plan, and closes. The record of the label `apart`, if one is told, goes though its bodies stay.
fn remove_skipped(
    words: &mut [u64],
    bytes: &[u8],
    header: Header,
    plan: OfferPlan,
    clock: u64,
    apart: Option<u64>,
) -> Removed
    requires { PlannedFor header clock plan words.old (length bytes.now) }
    ensures { RemovesPlanned clock plan (label_or_none apart) words.old words.new result }
{
    let mut skip = [0u32; LABELS];
    skip_planned(words, bytes, header, plan, &mut skip);
    if plan.none_expired {
        return remove_whole(words, bytes, header, stay_all(), &mut skip, apart, None);
    }
    let Header { limits, figures } = header;
    let records = (figures.templates + figures.chance) as usize;
    remove(
        words,
        records_at(limits),
        records,
        figures.entries as usize,
        stay_test(limits, clock, plan),
        &mut skip,
        apart,
    )
}

// Where nothing is handed out and the plan says that no body goes as expired: the label of the one template that goes,
// where no other does.
#[tactic(auto, using(crate::proofs::AloneGoing::none_alone, crate::proofs::AloneGoing::least_alone))]
pub fn alone_label(words: &[u64], bytes: &[u8], header: Header, plan: OfferPlan) -> Option<u64>
    requires { HoldsCache header words.now (length bytes.now) }
    ensures { (label : ℕ) → result ≡ Some label → GoesAlone words.now plan label }
{
    let Header { limits, figures } = header;
    if !plan.none_expired {
        return None;
    }
    if figures.chance != 0 {
        return None;
    }
    if plan.evicted == 0 {
        return plan.first;
    }
    if plan.evicted != 1 {
        return None;
    }
    if plan.first.is_some() {
        return None;
    }
    let (held, _) = header.templates(words);
    first_label(held)
}

// Whether nothing but expired bodies of the id may go, and its record is the one that goes.
fn only_expired(figures: HeaderFigures, plan: OfferPlan, apart: Option<u64>) -> bool
    ensures { result ≡ true → OnlyExpired figures plan apart }
{
    figures.chance == 0
        && plan.evicted == 0
        && plan.first.is_none()
        && !plan.all
        && plan.label == apart
}

// Removes by the plan; no array is made where one template goes alone, or expired bodies of the id alone.
fn remove_some(
    words: &mut [u64],
    bytes: &[u8],
    header: Header,
    plan: OfferPlan,
    clock: u64,
    apart: Option<u64>,
) -> Removed
    requires { PlannedFor header clock plan words.old (length bytes.now) }
    ensures { RemovesPlanned clock plan (label_or_none apart) words.old words.new result }
{
    if let Some(label) = alone_label(words, bytes, header, plan) {
        return remove_template(words, bytes, header, label, apart);
    }
    if only_expired(header.figures, plan, apart) {
        return remove_expired_of(words, bytes, header, clock, label_number(apart));
    }
    remove_skipped(words, bytes, header, plan, clock, apart)
}

// Removes what the plan removes. No entry is looked at where it is certain that nothing goes.
pub fn remove_planned(
    words: &mut [u64],
    bytes: &[u8],
    header: Header,
    plan: OfferPlan,
    clock: u64,
    apart: Option<u64>,
) -> Removed
    requires { PlannedAll header clock plan words.old (length bytes.now) }
    ensures { RemovesPlanned clock plan (label_or_none apart) words.old words.new result }
{
    if plan.none {
        return remove_none(words, bytes, header, apart);
    }
    remove_some(words, bytes, header, plan, clock, apart)
}
