// What a data record does to a reader of Universal Hex.
ghost use Rattle.std.specs.Prelude.{◌≡◌, Some};
ghost use Rattle.uhex_grammar.specs.declared.Role.TheVariants.{Data};
ghost use Rattle.uhex_effects.specs.Reader.{given_of, effect_of};

use crate::{Effect, Reader};
use uhex_grammar::Answer;

// Data of a board.
#[tactic(auto, unfolding(crate::specs::Reader::given_of))]
fn given(reader: Reader, board: u16, len: u8) -> Effect
    ensures { result ≡ given_of reader board len }
{
    if len == 0 {
        return Effect::Passes(reader);
    }
    if board == reader.own {
        return Effect::Stores(reader.with_data(board));
    }
    Effect::Passes(reader.with_data(board))
}

// A data record of a board.
#[tactic(auto, unfolding(crate::specs::Reader::effect_of))]
pub fn data(reader: Reader, board: u16, address: u16, len: u8) -> Result<Effect, Answer>
    ensures { result ≡ effect_of reader (Some (Data board)) address len 0 }
{
    if Reader::REACH < address as usize + len as usize {
        return Err(Answer::Crosses);
    }
    Ok(given(reader, board, len))
}
