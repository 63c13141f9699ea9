// Handed-out bodies of a pending flow cache that may still be put back, by their number from 0 (pending_flows.rs).
#![tactic(auto)]

ghost use Rattle.std.specs.Prelude.{◌≡◌};
ghost use Rattle.pending_flows.specs.View.{areas_of};
ghost use Rattle.pending_handed_out.specs.HandedOut.{place_number, PlacesHandedOut, ReadsHandedOut};
ghost use Rattle.pending_handed_out.specs.declared.PlaceRefusal.TheVariants as PlaceRefusal;

use table::Damaged;
use table_watch::Sought;

// Where a body lies in the byte area.
#[derive(Clone, Copy, Debug, PartialEq, Eq)]
pub struct BodyPlace {
    pub place: usize,
    pub len: usize,
}

// Why there is no place.
#[derive(Clone, Copy, Debug, PartialEq, Eq)]
pub enum PlaceRefusal {
    NotHandedOut,
    Damaged,
}

impl From<Damaged> for PlaceRefusal {
    ghost from_gives = { λ _ refusal. refusal ≡ PlaceRefusal.Damaged };

    fn from(_damaged: Damaged) -> PlaceRefusal {
        PlaceRefusal::Damaged
    }
}

// Document 01's number of a refusal.
impl From<PlaceRefusal> for u32 {
    ghost from_gives = { λ refusal number. number ≡ place_number refusal };

    fn from(refusal: PlaceRefusal) -> u32 {
        match refusal {
            PlaceRefusal::NotHandedOut => 27,
            PlaceRefusal::Damaged => 28,
        }
    }
}

// The place and length of handed-out body k.
#[tactic(auto, using(crate::proofs::HandedOut::place_damaged, crate::proofs::HandedOut::not_handed_out))]
pub fn place_handed_out(words: &[u64], bytes: &[u8], k: usize) -> Result<BodyPlace, PlaceRefusal>
    ensures { PlacesHandedOut (areas_of words.now bytes.now) k result
        (areas_of words.now bytes.now) }
{
    let seen = table_check::examine(words, bytes.len(), Sought::HandedOut(k))?;
    let entry = seen.found.ok_or(PlaceRefusal::NotHandedOut)?;
    Ok(BodyPlace {
        place: entry.place as usize,
        len: entry.len as usize,
    })
}

// Handed-out body k, as a part of the byte area; an empty part where the call beside it answers 27 or 28.
// No Result: by document 01 a refused reading shows an empty part, and the call beside it answers the number.
pub fn read_handed_out<'a>(words: &[u64], bytes: &'a [u8], k: usize) -> &'a [u8]
    ensures { ReadsHandedOut (areas_of words.now bytes.now) k result.now
        (areas_of words.now bytes.now) }
{
    let Ok(body) = place_handed_out(words, bytes, k) else {
        return &bytes[0..0];
    };
    let place = body.place;
    let end = place + body.len;
    &bytes[place..end]
}
