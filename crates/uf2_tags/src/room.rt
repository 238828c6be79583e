// The room of a block's extension tags (02, L4): where it starts and ends, and what a call answers at a place.
ghost use Rattle.std.specs.Prelude.{◌≡◌, ◌+◌, ◌≤◌, length, get_or};
ghost use Rattle.laws.specs.Numbered.{numbered};
ghost use Rattle.uf2_tags.specs.Tag.{sized, answer_number};
ghost use Rattle.uf2_tags.specs.Room.{bad_payload, bad_place, room_end, kind_at, stands_at, tag_at, first_place};

use crate::one_tag::{Answer, TagError};
use uf2_block::Block;

// where the data of a block starts, and the most bytes that a payload may have
const DATA: usize = 32;

const PAYLOAD: u32 = 476;

// the room of tags ends before the last magic number, or before the checksum of flag 0x4000
const ROOM: usize = 508;

const ROOM_MD5: usize = 484;

#[tactic(auto, unfolding(crate::specs::Room::bad_payload))]
fn bad_payload(size: u32) -> bool
    ensures { result ≡ bad_payload size }
{
    (PAYLOAD < size) | (size % 4 != 0)
}

#[tactic(auto, unfolding(crate::specs::Room::bad_place))]
fn bad_place(from: usize, at: usize) -> bool
    ensures { result ≡ bad_place from at }
{
    (at < from) | (at % 4 != 0)
}

// The place of the first tag: after the payload.
pub fn first_place(block: &[u8]) -> usize
    ensures { result ≡ first_place block.now }
{
    DATA + uf2_block::field(block, 16) as usize
}

// Where the room of the tags ends.
fn room_end(block: &[u8]) -> usize
    ensures value { result ≡ room_end block.now }
    ensures within { (484 ≤ result) × (result ≤ 508) }
{
    if uf2_block::has_region(block) {
        return ROOM_MD5;
    }
    ROOM
}

// What stands at a place of the room.
#[inline(always)]
fn tag_in(block: &[u8], at: usize, end: usize) -> Answer
    requires { (length block.now ≡ 512) × (at + 4 ≤ end) × (end ≤ 508) }
    ensures { result ≡ sized (get_or block.now at 0) (kind_at block.now at) at end }
{
    // the size byte, and above it the three bytes of the type
    let head = uf2_block::field(block, at);
    let size = (head % 256) as u8;
    let kind = head / 256;
    crate::one_tag::tag_sized(size, kind, at as u16, end as u16)
}

// What a call answers at a place of a block that may have tags.
#[inline(always)]
fn stands_at(block: &[u8], at: usize) -> Answer
    requires { length block.now ≡ 512 }
    ensures { result ≡ stands_at block.now at }
{
    if bad_place(first_place(block), at) {
        return Err(TagError::BadPlace);
    }
    let end = room_end(block);
    // no sum of a handed place: it may be near 2^64
    if end - 4 < at {
        return Err(TagError::NoRoom);
    }
    tag_in(block, at, end)
}

// What a call answers at a place of a block.
// Inlined, and what it asks too: an answer that lies in memory is filled with zeros first, by a function that a board's library would have to call.
#[inline(always)]
pub fn tag_at(block: &[u8], at: usize) -> Answer
    ensures { numbered answer_number result ≡ numbered answer_number (tag_at block.now at) }
{
    if block.len() != Block::ARRIVAL {
        return Err(TagError::BadLength);
    }
    if !uf2_block::is_block(block) {
        return Err(TagError::NotBlock);
    }
    if uf2_block::field(block, 8) & Block::FLAG_TAGS == 0 {
        return Ok(None);
    }
    if bad_payload(uf2_block::field(block, 16)) {
        return Err(TagError::BadPayload);
    }
    stands_at(block, at)
}
