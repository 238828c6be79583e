// What a section's 04 and 0A and the file's 01 do to a reader of Universal Hex.
ghost use Rattle.std.specs.Prelude.{◌≡◌, Some};
ghost use Rattle.uhex_grammar.specs.declared.Role.TheVariants.{Opening, Naming, Ending};
ghost use Rattle.uhex_effects.specs.Reader.{effect_of};

use crate::{Effect, Reader};
use uhex_grammar::{Answer, ReaderState};

// what a section's offset is a multiple of
const SECTION: u32 = 512;

// The 04 that opens a section.
#[tactic(auto, unfolding(crate::specs::Reader::effect_of))]
pub fn opening(reader: Reader, word: u16) -> Result<Effect, Answer>
    ensures { result ≡ effect_of reader (Some Opening) 0 0 word }
{
    if reader.offset % SECTION != 0 {
        return Err(Answer::Unaligned);
    }
    Ok(Effect::Passes(reader.with_upper(word).with_state(ReaderState::Opened)))
}

// The 0A that names the board of a section.
#[tactic(auto, unfolding(crate::specs::Reader::effect_of))]
pub fn naming(reader: Reader, word: u16) -> Result<Effect, Answer>
    ensures { result ≡ effect_of reader (Some Naming) 0 0 word }
{
    if reader.sections_seen.has(word) {
        return Err(Answer::Repeated);
    }
    Ok(Effect::Passes(
        reader
            .with_section(word)
            .with_state(ReaderState::Inside(word)),
    ))
}

// The 01.
#[tactic(auto, unfolding(crate::specs::Reader::effect_of))]
pub fn ending(reader: Reader) -> Result<Effect, Answer>
    ensures { result ≡ effect_of reader (Some Ending) 0 0 0 }
{
    if !reader.data_seen.both() {
        return Err(Answer::MissingBoard);
    }
    Ok(Effect::Ends(reader.with_state(ReaderState::Ended)))
}
