// The queries of a cache: each answers document 01's number, 0 on success, and writes values then only.
ghost use Rattle.std.specs.Prelude.{◌≡◌, [], ◌∷◌};
ghost use Rattle.pending_flows.specs.View.{areas_of};
ghost use Rattle.pending_queries.specs.Queries.{accept_answer, figures_answer};
ghost use Rattle.export_queries.specs.Exports.{Exported, ExportedPlace};
ghost use Rattle.export_queries.specs.Exports.{ExportsWouldAccept, ExportsFigures, ExportsPlace};

use answer_numbers::write_values;
use pending_handed_out::{BodyPlace, PlaceRefusal};
use pending_queries::CacheFigures;
use table::Damaged;

// Answers the number, and writes 1 for yes or 0 for no on success.
fn export_accepts(answer: Result<bool, Damaged>, accepts: &mut u64) -> u32
    ensures { Exported (accept_answer answer) result (accepts.old ∷ []) (accepts.new ∷ []) }
{
    write_values(answer, accepts, |yes| yes as u64)
}

// Whether an offer would be accepted: 0 with 1 for yes or 0 for no, or 28.
#[tactic(auto, using(crate::proofs::Exports::exports_query))]
pub fn would_accept(
    words: &[u64],
    bytes: &[u8],
    id: u16,
    length: usize,
    clock: u64,
    accepts: &mut u64,
) -> u32
    ensures { ExportsWouldAccept id length clock (areas_of words.now bytes.now) result
        (areas_of words.now bytes.now) accepts.old accepts.new }
{
    export_accepts(
        pending_queries::would_accept(words, bytes, id, length, clock),
        accepts,
    )
}

// The six figures as words.
// An array, and no `From`: neither type is of this crate, and the crate of the figures knows no words.
fn figure_words(found: CacheFigures) -> [u64; 6]
    ensures { result ≡ found.templates ∷ found.bodies ∷ found.bytes ∷ found.cached ∷ found.dropped ∷ found.handed
        ∷ [] }
{
    [
        found.templates,
        found.bodies,
        found.bytes,
        found.cached,
        found.dropped,
        found.handed,
    ]
}

// Answers the number, and writes the six figures on success.
fn export_figures(answer: Result<CacheFigures, Damaged>, figures: &mut [u64; 6]) -> u32
    ensures { Exported (figures_answer answer) result figures.old figures.new }
{
    write_values(answer, figures, figure_words)
}

// Templates and bodies held, bytes held, both counters and the bodies handed out: 0 with these, or 28.
#[tactic(auto, using(crate::proofs::Exports::exports_query))]
pub fn figures(words: &[u64], bytes: &[u8], figures: &mut [u64; 6]) -> u32
    ensures { ExportsFigures (areas_of words.now bytes.now) result
        (areas_of words.now bytes.now) figures.old figures.new }
{
    export_figures(pending_queries::take_figures(words, bytes), figures)
}

// Place and length as words.
// An array, and no `From`: neither type is of this crate, and the crate of the figures knows no words.
fn place_words(found: BodyPlace) -> [u64; 2]
    ensures { result ≡ found.place ∷ found.len ∷ [] }
{
    [found.place as u64, found.len as u64]
}

// Answers the number, and writes place and length on success.
fn export_place(answer: Result<BodyPlace, PlaceRefusal>, place: &mut [u64; 2]) -> u32
    ensures { ExportedPlace answer result place.old place.new }
{
    write_values(answer, place, place_words)
}

// Where a handed-out body lies in the byte area, and its length: 0 with these, or 28 or 27.
pub fn place_handed_out(words: &[u64], bytes: &[u8], number: usize, place: &mut [u64; 2]) -> u32
    ensures { ExportsPlace number (areas_of words.now bytes.now) result
        (areas_of words.now bytes.now) place.old place.new }
{
    export_place(
        pending_handed_out::place_handed_out(words, bytes, number),
        place,
    )
}
