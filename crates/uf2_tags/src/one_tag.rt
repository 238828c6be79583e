// One extension tag of a UF2 block (02, L4): what a call answers, and what a size and a type at a place say.
ghost use Rattle.std.specs.Prelude.{◌≡◌, ◌≤◌};
ghost use Rattle.laws.specs.Numbered.{numbered};
ghost use Rattle.uf2_tags.specs.Tag.{tag_of, sized, error_number, answer_number};

// A tag: its type, where its contents stand in the block and how many bytes they have, and the place after it.
#[derive(Clone, Copy, PartialEq, Eq)]
pub struct Tag {
    pub kind: u32,
    pub start: usize,
    pub len: u8,
    pub next: usize,
}

// Why no tag is answered, by the number of the refusal.
#[derive(Clone, Copy, PartialEq, Eq)]
pub enum TagError {
    BadLength = 1,
    BadPlace = 3,
    NotBlock = 4,
    BadPayload = 61,
    ShortTag = 62,
    TypedEnd = 63,
    PastRoom = 64,
    NoRoom = 65,
}

// What a call answers: a tag, None for the end, or a refusal.
pub type Answer = Result<Option<Tag>, TagError>;

impl Tag {
    // Types that 000 lists: a text (semver), a text, a number of 32 bits, a checksum, a number of 32 or 64 bits.
    pub const VERSION: u32 = 0x9fc7bc;

    pub const DEVICE: u32 = 0x650d9d;

    pub const PAGE_SIZE: u32 = 0x0be9f7;

    pub const SHA2: u32 = 0xb46db0;

    pub const DEVICE_TYPE: u32 = 0xc8a729;
}

impl TagError {
    pub fn number(self) -> u8
        ensures { result ≡ error_number self }
    {
        self as u8
    }
}

// The number of an answer: 0 for a tag, 60 for the end.
pub fn number(answer: Answer) -> u8
    ensures { result ≡ answer_number answer }
{
    match answer {
        Ok(Some(_)) => 0,
        Ok(None) => 60,
        Err(error) => error.number(),
    }
}

// The tag of a size and a type at a place.
#[tactic(auto, unfolding(crate::specs::Tag::tag_of))]
fn made(size: u8, kind: u32, at: u16) -> Tag
    requires { 4 ≤ size }
    ensures { result ≡ tag_of size kind at }
{
    let start = at as usize + 4;
    let len = size - 4;
    let next = at as usize + (size as usize + 3) / 4 * 4;
    Tag {
        kind,
        start,
        len,
        next,
    }
}

// What a size and a type at a place say, in a room that ends at `end`.
#[inline(always)]
pub fn tag_sized(size: u8, kind: u32, at: u16, end: u16) -> Answer
    ensures { numbered answer_number result ≡ numbered answer_number (sized size kind at end) }
{
    if size == 0 {
        if kind == 0 {
            return Ok(None);
        }
        return Err(TagError::TypedEnd);
    }
    if size < 4 {
        return Err(TagError::ShortTag);
    }
    if (end as usize) < at as usize + size as usize {
        return Err(TagError::PastRoom);
    }
    Ok(Some(made(size, kind, at)))
}
