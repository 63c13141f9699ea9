// Putting back what a drain handed out.
// Both areas are given, also where the words alone are read: what is asked is that the two hold a cache. They are two
// parameters, as some calls change the words alone.
#![tactic(auto)]

ghost use Rattle.std.specs.Prelude.{◌≡◌, ◌<◌, length};
ghost use Rattle.std.specs.List.{find};
ghost use Rattle.table.specs.Parts.{templates_of};
ghost use Rattle.table.specs.Table.{table_of};
ghost use Rattle.cache_model.specs.Cache.{done};
ghost use Rattle.cache_model.specs.Calls.{put_back};
ghost use Rattle.pending_flows.specs.Header.{HoldsCache};
ghost use Rattle.pending_flows.specs.View.{areas_of, cache_of};
ghost use Rattle.pending_calls.specs.Promises.{Does};
ghost use Rattle.pending_restore.specs.Restoring.{may_give, HasChance, FindsChance, TakesBack};
ghost use Rattle.pending_restore.specs.Promises.{put_back_number, PutsBack};
ghost use Rattle.pending_restore.specs.declared.PutBackRefusal.TheVariants as PutBackRefusal;

use config::RECORD_WORDS;
use pending_calls::{Removed, remove, stay_all};
use pending_flows::{Header, HeaderFigures};
use table::{Damaged, LABELS, TemplateRecord, records_at, template_of};
use table_records::set_sum;

// Why nothing is put back.
#[derive(Clone, Copy, Debug, PartialEq, Eq)]
pub enum PutBackRefusal {
    NoChance,
    Damaged,
}

impl From<Damaged> for PutBackRefusal {
    ghost from_gives = { λ _ refusal. refusal ≡ PutBackRefusal.Damaged };

    fn from(_damaged: Damaged) -> PutBackRefusal {
        PutBackRefusal::Damaged
    }
}

// Document 01's number of a refusal.
impl From<PutBackRefusal> for u32 {
    ghost from_gives = { λ refusal number. number ≡ put_back_number refusal };

    fn from(refusal: PutBackRefusal) -> u32 {
        match refusal {
            PutBackRefusal::NoChance => 25,
            PutBackRefusal::Damaged => 28,
        }
    }
}

// The first of these templates that has this id and at least n bodies.
fn sought(handed: &[[u64; RECORD_WORDS]], id: u64, n: u64) -> Option<TemplateRecord>
    ensures { result ≡ find (may_give id n) (templates_of handed.now) }
{
    handed
        .iter()
        .map(|words| template_of(words))
        .find(|template| id == template.key && n <= template.count)
}

// The handed-out template of a well-formed cache, if it has this id and at least n bodies; n is not 0.
fn find_chance(
    words: &[u64],
    bytes: &[u8],
    header: Header,
    id: u64,
    n: u64,
) -> Option<TemplateRecord>
    requires { HoldsCache header words.now (length bytes.now) × (0 < n) }
    ensures { FindsChance id n words.now bytes.now result }
{
    let (_, handed) = header.templates(words);
    sought(handed, id, n)
}

// Removes so many of a label's bodies, the oldest, and no others.
fn take_back(words: &mut [u64], bytes: &[u8], header: Header, label: u64, less: u32) -> Removed
    requires { HoldsCache header words.old (length bytes.now) }
    ensures { TakesBack header label less words.old words.new result }
{
    let Header { limits, figures } = header;
    let records = (figures.templates + figures.chance) as usize;
    let mut skip = [0; LABELS];
    set_sum(&mut skip, label, less);
    remove(
        words,
        records_at(limits),
        records,
        figures.entries as usize,
        stay_all(),
        &mut skip,
        None,
    )
}

// Puts the last n bodies of the handed-out template back, as the newest template.
fn put_back(words: &mut [u64], bytes: &[u8], header: Header, template: TemplateRecord, n: u64)
    requires header_value { HoldsCache header words.old (length bytes.now) }
    requires n_nonzero { (0 < n) × HasChance n template words.old }
    ensures { Does (put_back template.key n) (cache_of (table_of words.old) bytes.now)
        (areas_of words.old bytes.now) done (areas_of words.new bytes.now) }
{
    let Header { limits, figures } = header;
    let less = template.count - n;
    let removed = take_back(words, bytes, header, template.label, less as u32);
    let after = HeaderFigures {
        total: removed.bytes,
        templates: removed.records as u64,
        entries: removed.entries as u64,
        chance: 0,
        ..figures
    };
    let restored = Header {
        limits,
        figures: after,
    };
    restored.write(words);
}

// Puts back the last n bodies of the last drain, if it drained this id, handed out as many, and neither an offer nor
// another call has ended the chance; a put-back ends it.
#[tactic(auto, using(crate::proofs::Restores::put_back_damaged))]
pub fn restore_replay_suffix(
    words: &mut [u64],
    bytes: &[u8],
    id: u16,
    n: usize,
) -> Result<(), PutBackRefusal>
    ensures { PutsBack id n (areas_of words.old bytes.now) result
        (areas_of words.new bytes.now) }
{
    let header = Header::of_cache(words, bytes)?;
    if n == 0 {
        return Ok(());
    }
    // no `ok_or` and `?`: tried, and what is answered then did not close
    let Some(template) = find_chance(words, bytes, header, id as u64, n as u64) else {
        return Err(PutBackRefusal::NoChance);
    };
    put_back(words, bytes, header, template, n as u64);
    Ok(())
}
