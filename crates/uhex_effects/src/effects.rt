// What a good record does to a reader of Universal Hex, by its role.
ghost use Rattle.std.specs.Prelude.{◌≡◌};
ghost use Rattle.uhex_effects.specs.Reader.{effect_of};

use crate::{Effect, Reader};
use uhex_grammar::{Answer, ReaderState, Role};

// What a good record does: its role, its address field, the number of its data bytes, and the first two of them as a number.
#[tactic(auto, unfolding(crate::specs::Reader::effect_of))]
pub fn effect(
    reader: Reader,
    role: Option<Role>,
    address: u16,
    len: u8,
    word: u16,
) -> Result<Effect, Answer>
    ensures { result ≡ effect_of reader role address len word }
{
    match role {
        Some(Role::Opening) => crate::marks::opening(reader, word),
        Some(Role::Naming) => crate::marks::naming(reader, word),
        Some(Role::Address) => Ok(Effect::Passes(reader.with_upper(word))),
        Some(Role::Data(board)) => crate::data_record::data(reader, board, address, len),
        Some(Role::Padding(board)) => Ok(Effect::Passes(reader.with_state(ReaderState::Padded(
            board,
        )))),
        Some(Role::Other) => Ok(Effect::Passes(reader)),
        Some(Role::Closing) => Ok(Effect::Passes(reader.with_state(ReaderState::Between))),
        Some(Role::Ending) => crate::marks::ending(reader),
        None => Err(Answer::OutOfPlace),
    }
}
