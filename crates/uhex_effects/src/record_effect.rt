// What a good record does to a reader of Universal Hex, by its fields and its data.
ghost use Rattle.std.specs.Prelude.{◌≡◌};
ghost use Rattle.uhex_effects.specs.Effect.{record_effect};

use crate::{Effect, Reader};
use ihex_record::Record;
use uhex_grammar::Answer;

// What a good record does, by its fields and its data, or the answer that refuses it.
#[tactic(auto, unfolding(crate::specs::Reader::effect_of))]
pub fn effect_of(reader: Reader, rec: Record, data: [u8; Record::MAX]) -> Result<Effect, Answer>
    ensures { result ≡ record_effect reader rec «data» }
{
    let word = ihex_record::word(data[0], data[1]);
    let role = uhex_grammar::roles::role_at(reader.state, rec.kind, rec.len);
    crate::effects::effect(reader, role, rec.address, rec.len, word)
}
