// A comment beside the place of its kind: rows 8 and 10.
ghost use Rattle.std.specs.Prelude.{◌≡◌};
ghost use Rattle.uf2_checks.specs.Screen.{noted, note_found};

use crate::{Body, PlacedBlock};
use placement::Place;
use transfer::{Answer, Head, Kind};
use uf2_block::Block;

// A comment beside its place: of its fields, its numbers alone are asked.
fn note(kind: Kind, b: Block, size: usize) -> Result<PlacedBlock, Answer>
    ensures { result ≡ noted kind size b }
{
    let bad = crate::numbers::bad_numbers(b, size);
    if bad {
        return Err(Answer::BadNumbers);
    }
    let head = Head::new(kind, b.family, b.total);
    Ok(PlacedBlock {
        head,
        number: b.number,
        body: Body::Note,
    })
}

// A comment, by the place of its kind.
pub fn check_note(kind: Kind, place: Option<Place>, b: Block) -> Result<PlacedBlock, Answer>
    ensures { result ≡ note_found kind place b }
{
    match place {
        None => Err(Answer::NoPlace),
        Some(p) => note(kind, b, p.len),
    }
}
