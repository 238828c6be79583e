// What a good record of a line leaves: the next reader of Universal Hex, the answer, and the image.
ghost use Rattle.std.specs.Prelude.{◌≡◌, cond, ◌+◌, ◌≤◌, ltb, length};
ghost use Rattle.uhex_grammar.specs.declared.Answer.TheVariants.{Outside, Stored};
ghost use Rattle.uhex_effects.specs.Reader.{moved_to};
ghost use Rattle.uhex_reader.specs.Outcome.{line_outcome, reply, failed_by, stored_at, storing, effect_outcome, bounded_outcome};

use ihex_record::Record;
use uhex_effects::{Effect, Reader};
use uhex_grammar::{Answer, Failure, ReaderState};

// The next reader, and the answer.
#[derive(Clone, Copy)]
pub struct Reply {
    pub reader: Reader,
    pub answer: Answer,
}

// A line that fails with an answer.
pub fn failing(reader: Reader, answer: Answer) -> Reply
    ensures { result ≡ reply (failed_by answer reader) answer }
{
    Reply {
        reader: reader.with_state(ReaderState::Failed(Failure { answer })),
        answer,
    }
}

// The reader of a line that ends at an offset, and its answer.
fn moving(reader: Reader, end: u32, answer: Answer) -> Reply
    ensures { result ≡ reply (moved_to reader end) answer }
{
    Reply {
        reader: reader.moved_to(end),
        answer,
    }
}

// Bytes, over the image from an address on, where they are wholly in it.
fn store_at(at: usize, bytes: &[u8], image: &mut [u8]) -> Answer
    requires { (length bytes.now ≤ 32) × (at ≤ 4294967295) }
    ensures value { result ≡ cond (ltb (length image.old) (at + length bytes.now)) Outside Stored }
    ensures image { image.new ≡ stored_at at (length bytes.now) bytes.now image.old }
{
    let end = at + bytes.len();
    if image.len() < end {
        return Answer::Outside;
    }
    image[at..end].copy_from_slice(bytes);
    Answer::Stored
}

// Own data, of a line that ends at an offset.
fn store(reader: Reader, rec: Record, data: &[u8; Record::MAX], end: u32, image: &mut [u8]) -> Reply
    requires { rec.len ≤ 32 }
    ensures { line_outcome result.reader result.answer image.new ≡ storing reader rec «data».now end image.old }
{
    let at = Reader::REACH * (reader.upper as usize) + rec.address as usize;
    let n = rec.len as usize;
    let answer = store_at(at, &data[..n], image);
    moving(reader, end, answer)
}

// The effect of a good record of a line that ends at an offset.
#[tactic(auto, unfolding(crate::specs::Outcome::effect_outcome))]
fn perform(
    reader: Reader,
    effect: Result<Effect, Answer>,
    rec: Record,
    data: &[u8; Record::MAX],
    end: u32,
    image: &mut [u8],
) -> Reply
    requires { rec.len ≤ 32 }
    ensures { line_outcome result.reader result.answer image.new ≡ effect_outcome reader rec «data».now end image.old effect }
{
    match effect {
        Err(answer) => failing(reader, answer),
        Ok(Effect::Passes(next)) => moving(next, end, Answer::Passed),
        Ok(Effect::Stores(next)) => store(next, rec, data, end, image),
        Ok(Effect::Ends(next)) => moving(next, end, Answer::Ended),
    }
}

// A good record of a line that ends at an offset. None that a line says has more than 32 bytes.
pub fn apply(
    reader: Reader,
    rec: Record,
    data: [u8; Record::MAX],
    end: u32,
    image: &mut [u8],
) -> Reply
    ensures { line_outcome result.reader result.answer image.new ≡ bounded_outcome reader rec «data» end image.old }
{
    if Record::MAX < rec.len as usize {
        return failing(reader, Answer::TooLong);
    }
    let effect = uhex_effects::record_effect::effect_of(reader, rec, data);
    perform(reader, effect, rec, &data, end, image)
}
