// One entry of the packed store of settings, read from 22 bytes; its fields stand most significant bit first.
#![tactic(auto)]

pub mod chunk_bits;
pub mod stray;
pub mod write;

ghost use Rattle.std.specs.Prelude.{◌≡◌};
ghost use Rattle.store_entry.specs.EntryBits.{link_of, entry_from, entry_in};
ghost use Rattle.store_entry.specs.Fields.{chunk_fields};

use crate::chunk_bits::Chunks;
use partitions::{Entry, Link};

#[tactic(auto, unfolding(crate::specs::EntryBits::link_of))]
fn link_of(kind: u64, k: u8) -> Link
    ensures { result ≡ link_of kind k }
{
    match kind {
        1 => Link::OwnedBy(k),
        2 => Link::BOf(k),
        _ => Link::Unlinked,
    }
}

#[tactic(auto, unfolding(crate::specs::EntryBits::entry_from, crate::specs::Fields::chunk_fields, laws::specs::Packing::unpacked, laws::specs::Packing::total))]
fn entry_of(c: Chunks) -> Entry
    ensures { result ≡ entry_from (chunk_fields c) }
{
    let h = c.h;
    let link = link_of(h / 8192 % 4, (h / 512 % 16) as u8);
    Entry {
        first: (h / 536870912 % 8192) as u32,
        sectors: (h / 32768 % 16384) as u32,
        users: [c.u, c.v, c.w, c.x],
        data: h / 256 % 2 == 1,
        arm_s: h / 128 % 2 == 1,
        riscv: h / 64 % 2 == 1,
        arm_ns: h / 32 % 2 == 1,
        user_count: (h % 8) as u8,
        not_bootable_arm: h / 16 % 2 == 1,
        not_bootable_riscv: h / 8 % 2 == 1,
        link,
        no_restart: c.tail / 32 % 2 == 1,
    }
}

// The entry of 22 bytes; of another length, a blank one.
pub fn unpack(bytes: &[u8]) -> Entry
    ensures { result ≡ entry_in bytes.now }
{
    match crate::chunk_bits::read_entry(bytes) {
        Some(c) => entry_of(c),
        None => Entry::blank(),
    }
}
