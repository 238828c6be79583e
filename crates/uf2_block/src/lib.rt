// A UF2 block: its fields and the answer of its header. What reads and writes a field is passed on from `words`.
#![tactic(auto)]

pub mod covering;
pub mod digest_bytes;
pub mod regions;
pub mod words;

ghost use Rattle.std.specs.Prelude.{◌≡◌};
ghost use Rattle.laws.specs.Numbered.{numbered};
ghost use Rattle.uf2_block.specs.Block.{has_flag, fields_of, flagged_of, is_block, header_of, header_number};
ghost use Rattle.uf2_block.specs.Region.{region_of};

pub use crate::words::{field, put};

// The fields of a block that a header leaves to the checks after it, and whether it is a comment, which takes a number and holds no page.
#[derive(Clone, Copy)]
pub struct Block {
    pub address: u32,
    pub size: u32,
    pub number: u32,
    pub total: u32,
    pub family: u32,
    pub comment: bool,
}

// Why the header of an arrival yields no block.
#[derive(Clone, Copy)]
pub enum HeaderError {
    NotBlock,
    Container,
    NoFamily,
}

// The region that a block with flag 0x4000 names: its start, an address of the window, its length, and the words A, B, C, D of its MD5 digest.
// Kept, contract: its digest is not a `Digest`, since region_of, same_digest and theorems of crates above name the four words as its fields.
#[derive(Clone, Copy, PartialEq, Eq)]
pub struct Region {
    pub start: u32,
    pub len: u32,
    pub a: u32,
    pub b: u32,
    pub c: u32,
    pub d: u32,
}

impl Block {
    pub const ARRIVAL: usize = 512;

    // Where the address window begins, which is where a place's first byte is seen.
    pub const WINDOW: usize = 0x10000000;

    pub const MAGIC_FIRST: u32 = 0x0A324655;

    pub const MAGIC_SECOND: u32 = 0x9E5D5157;

    pub const MAGIC_LAST: u32 = 0x0AB16F30;

    pub const FLAG_NOT_MAIN_FLASH: u32 = 0x1;

    pub const FLAG_CONTAINER: u32 = 0x1000;

    pub const FLAG_FAMILY: u32 = 0x2000;

    pub const FLAG_MD5: u32 = 0x4000;

    pub const FLAG_TAGS: u32 = 0x8000;
}

// Are all three magic numbers right?
pub fn is_block(arrival: &[u8]) -> bool
    ensures { result ≡ is_block arrival.now }
{
    (field(arrival, 0) == Block::MAGIC_FIRST)
        & (field(arrival, 4) == Block::MAGIC_SECOND)
        & (field(arrival, 508) == Block::MAGIC_LAST)
}

// The fields of a block, whatever its header says.
pub fn fields(arrival: &[u8]) -> Block
    ensures { result ≡ fields_of arrival.now }
{
    Block {
        address: field(arrival, 12),
        size: field(arrival, 16),
        number: field(arrival, 20),
        total: field(arrival, 24),
        family: field(arrival, 28),
        comment: field(arrival, 8) & Block::FLAG_NOT_MAIN_FLASH != 0,
    }
}

// The header of an arrival whose magic numbers are right.
fn flagged(arrival: &[u8]) -> Result<Block, HeaderError>
    ensures { result ≡ flagged_of arrival.now }
{
    let flags = field(arrival, 8);
    if flags / Block::FLAG_CONTAINER % 2 == 1 {
        return Err(HeaderError::Container);
    }
    if flags / Block::FLAG_FAMILY % 2 != 1 {
        return Err(HeaderError::NoFamily);
    }
    Ok(fields(arrival))
}

// The block that the header of an arrival yields, or why it yields none.
pub fn read(arrival: &[u8]) -> Result<Block, HeaderError>
    ensures { numbered header_number result ≡ numbered header_number (header_of arrival.now) }
{
    if field(arrival, 0) != Block::MAGIC_FIRST {
        return Err(HeaderError::NotBlock);
    }
    if field(arrival, 4) != Block::MAGIC_SECOND {
        return Err(HeaderError::NotBlock);
    }
    if field(arrival, 508) != Block::MAGIC_LAST {
        return Err(HeaderError::NotBlock);
    }
    flagged(arrival)
}

// Does a block name a region?
pub fn has_region(arrival: &[u8]) -> bool
    ensures { result ≡ has_flag arrival.now 0x4000 }
{
    field(arrival, 8) & Block::FLAG_MD5 != 0
}

// The region that a block names.
pub fn read_region(arrival: &[u8]) -> Region
    ensures { result ≡ region_of arrival.now }
{
    Region {
        start: field(arrival, 484),
        len: field(arrival, 488),
        a: field(arrival, 492),
        b: field(arrival, 496),
        c: field(arrival, 500),
        d: field(arrival, 504),
    }
}
