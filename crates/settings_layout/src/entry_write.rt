// One entry of the settings' table, written as bytes. include/uf2_receiver.h has the layout for C.
ghost use Rattle.std.specs.Prelude.{◌≡◌, length};
ghost use Rattle.laws.specs.Over.{over};
ghost use Rattle.settings_layout.specs.EntryBytes.{numbers_of, flag_bytes, with_entry};

use crate::ENTRY;
use partitions::Entry;

// The bytes of an entry's numbers.
const NUMBERS: usize = 24;

#[tactic(auto, using(partitions::proofs::Numbers::from_bit), unfolding(crate::specs::EntryBytes::flag_bytes))]
fn flags(e: Entry) -> [u8; 10]
    ensures { result ≡ flag_bytes e }
{
    let link = e.link;
    [
        u8::from(e.data),
        u8::from(e.arm_s),
        u8::from(e.riscv),
        u8::from(e.arm_ns),
        e.user_count,
        u8::from(e.not_bootable_arm),
        u8::from(e.not_bootable_riscv),
        link.kind(),
        link.index(),
        u8::from(e.no_restart),
    ]
}

#[tactic(auto, using(crate::proofs::entry_write::Pieces::six_put))]
fn put_numbers(bytes: &mut [u8], first: u32, sectors: u32, users: [u32; 4])
    requires { length bytes.old ≡ 34 }
    ensures { bytes.new ≡ over bytes.old 0 (numbers_of first sectors users) }
{
    uf2_block::put(bytes, 0, first);
    uf2_block::put(bytes, 4, sectors);
    uf2_block::put(bytes, 8, users[0]);
    uf2_block::put(bytes, 12, users[1]);
    uf2_block::put(bytes, 16, users[2]);
    uf2_block::put(bytes, 20, users[3]);
}

// Writes an entry, where there are bytes for it.
pub fn write_entry(bytes: &mut [u8], e: Entry)
    ensures { bytes.new ≡ with_entry bytes.old e }
{
    if bytes.len() != ENTRY {
        return;
    }
    let users = e.users;
    put_numbers(bytes, e.first, e.sectors, users);
    bytes[NUMBERS..ENTRY].copy_from_slice(&flags(e));
}
