// The extension tags of a block for C: a library beside that of `capi`.
#![tactic(auto)]

ghost use Rattle.std.specs.Prelude.{◌≡◌, length};
ghost use Rattle.uf2_tags.specs.Room.{first_place};
ghost use Rattle.tagsapi.specs.Calls.{Low, tag_bytes, tag_call, tag_call_of, tag_at_call, tag_find_call};

use uf2_tags::one_tag::{Answer, number};

// The bytes of a tag: type, start, length and next place.
const TAG: usize = 16;

fn write(bytes: &mut [u8], kind: u32, start: u32, len: u32, next: u32)
    requires { length bytes.old ≡ 16 }
    ensures { bytes.new ≡ tag_bytes kind start len next }
{
    uf2_block::put(bytes, 0, kind);
    uf2_block::put(bytes, 4, start);
    uf2_block::put(bytes, 8, len);
    uf2_block::put(bytes, 12, next);
}

// Writes the tag that was found.
#[inline(always)]
fn tell(answer: Answer, tag: &mut [u8]) -> u32
    requires tag_len { length tag.old ≡ 16 }
    requires low { Low answer }
    ensures { tag_call result tag.new ≡ tag_call_of tag.old answer }
{
    let n = u32::from(number(answer));
    let Ok(Some(t)) = answer else {
        return n;
    };
    write(tag, t.kind, t.start as u32, u32::from(t.len), t.next as u32);
    n
}

// The place of the first tag: after the payload.
#[unsafe(no_mangle)]
pub extern "C" fn uf2_tag_first(block: &[u8]) -> usize
    ensures { result ≡ first_place block.now }
{
    uf2_tags::room::first_place(block)
}

// What stands at a place: 0 and the tag in `tag`, or the number of the end or of a refusal.
#[unsafe(no_mangle)]
pub extern "C" fn uf2_tag(block: &[u8], place: usize, tag: &mut [u8]) -> u32
    ensures { tag_call result tag.new ≡ tag_at_call block.now place tag.old }
{
    if tag.len() != TAG {
        return 1;
    }
    tell(uf2_tags::room::tag_at(block, place), tag)
}

// The first tag of a type: 0 and the tag in `tag`, or the number of the end or of the refusal before any.
// Kept, C interface: `uf2_store_read` has the same shape for another value.
#[unsafe(no_mangle)]
pub extern "C" fn uf2_tag_find(block: &[u8], kind: u32, tag: &mut [u8]) -> u32
    ensures { tag_call result tag.new ≡ tag_find_call block.now kind tag.old }
{
    if tag.len() != TAG {
        return 1;
    }
    tell(uf2_tags::find(block, kind), tag)
}
