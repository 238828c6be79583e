// One entry of the settings' table, read from bytes. include/uf2_receiver.h has the layout for C.
ghost use Rattle.std.specs.Prelude.{◌≡◌};
ghost use Rattle.settings_layout.specs.EntryBytes.{byte_at, is_on, link_from, users_from, entry_from};

use partitions::{Entry, Link};

// The byte at i, and 0 past the end.
// Kept, C interface: `get` hands out an Option with a reference, which a 32-bit board reads wrongly.
pub fn byte(bytes: &[u8], i: usize) -> u8
    ensures { result ≡ byte_at bytes.now i }
{
    if i < bytes.len() { bytes[i] } else { 0 }
}

// Is the flag at i on?
pub fn on(bytes: &[u8], i: usize) -> bool
    ensures { result ≡ is_on (byte_at bytes.now i) }
{
    byte(bytes, i) != 0
}

// Kept, contract: `link_from` takes another tag as a bad link, where `link_of` of store_entry takes another kind as none.
// Of another tag than 0, 1 and 2: a link that is bad at every index.
#[tactic(auto, unfolding(crate::specs::EntryBytes::link_from))]
fn link(tag: u8, index: u8) -> Link
    ensures { result ≡ link_from tag index }
{
    match tag {
        0 => Link::Unlinked,
        1 => Link::OwnedBy(index),
        2 => Link::BOf(index),
        _ => Link::OwnedBy(255),
    }
}

fn users(e: &[u8]) -> [u32; 4]
    ensures { result ≡ users_from e.now }
{
    [
        uf2_block::field(e, 8),
        uf2_block::field(e, 12),
        uf2_block::field(e, 16),
        uf2_block::field(e, 20),
    ]
}

// The entry that 34 bytes are; what they lack is read as 0.
#[tactic(auto, unfolding(crate::specs::EntryBytes::entry_from))]
pub fn entry(e: &[u8]) -> Entry
    ensures { result ≡ entry_from e.now }
{
    let users = users(e);
    let link = link(byte(e, 31), byte(e, 32));
    Entry {
        first: uf2_block::field(e, 0),
        sectors: uf2_block::field(e, 4),
        users,
        data: on(e, 24),
        arm_s: on(e, 25),
        riscv: on(e, 26),
        arm_ns: on(e, 27),
        user_count: byte(e, 28),
        not_bootable_arm: on(e, 29),
        not_bootable_riscv: on(e, 30),
        link,
        no_restart: on(e, 33),
    }
}
