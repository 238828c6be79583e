// Settings as bytes: how they go in, and how they come back. Every byte slice is read; include/uf2_receiver.h has the layout for C.
#![tactic(auto)]

pub mod entries;
pub mod entry_write;

ghost use Rattle.std.specs.Prelude.{◌≡◌, ◌≤◌, length};
ghost use Rattle.laws.specs.Rows.{rows};
ghost use Rattle.settings_layout.specs.Layout.{
  count_from,
  used_of,
  settings_from,
  row_bytes,
  switch_bytes,
  with_settings,
};

use crate::entries::on;
use partitions::{Arch, Entry, Settings};

// The bytes of settings, those before their table, and those of an entry.
pub const SETTINGS: usize = 550;

const HEAD: usize = 6;

const ENTRY: usize = 34;

// Of bytes that are no settings: over 16, which is bad.
pub fn count(bytes: &[u8]) -> u8
    ensures { result ≡ count_from bytes.now }
{
    if bytes.len() == SETTINGS {
        bytes[5]
    } else {
        255
    }
}

fn used(count: u8) -> usize
    ensures value { result ≡ used_of count }
    ensures low { result ≤ 16 }
{
    let n = count as usize;
    if n <= Settings::ENTRIES { n } else { 0 }
}

// The settings that bytes are. Only the entries that are used are read: a board with few waits for no more.
pub fn read_settings(bytes: &[u8]) -> Settings
    ensures { result ≡ settings_from bytes.now }
{
    let arm = on(bytes, 0);
    let riscv = on(bytes, 1);
    let current = Arch::from(on(bytes, 2));
    let auto_switch = on(bytes, 3);
    let absolute = on(bytes, 4);
    let count = count(bytes);
    let n = used(count);
    let blank = Entry::blank();
    let mut table = [blank; Settings::ENTRIES];
    for k in 0..n {
        let from = HEAD + k * ENTRY;
        let to = from + ENTRY;
        table[k] = crate::entries::entry(&bytes[from..to]);
    }
    Settings {
        arm,
        riscv,
        current,
        auto_switch,
        absolute,
        count,
        table,
    }
}

// Kept, no plainer: `write_rows` of settings_store copies arrays of 22 bytes behind a head, and this lends parts of 34 bytes to be written.
fn write_table(bytes: &mut [u8], table: [Entry; Settings::ENTRIES])
    requires { length bytes.old ≡ 544 }
    ensures { bytes.new ≡ rows (row_bytes table) 16 }
{
    for k in 0..Settings::ENTRIES {
        let from = ENTRY * k;
        let to = from + ENTRY;
        let e = table[k];
        crate::entry_write::write_entry(&mut bytes[from..to], e);
    }
}

#[tactic(auto, using(partitions::proofs::Numbers::from_bit, partitions::proofs::Numbers::from_arch), unfolding(crate::specs::Layout::switch_bytes))]
fn switches(s: Settings) -> [u8; 6]
    ensures { result ≡ switch_bytes s }
{
    [
        u8::from(s.arm),
        u8::from(s.riscv),
        u8::from(s.current == Arch::RiscV),
        u8::from(s.auto_switch),
        u8::from(s.absolute),
        s.count,
    ]
}

// Writes settings, where there are bytes for them.
pub fn write_settings(bytes: &mut [u8], s: Settings)
    ensures { bytes.new ≡ with_settings bytes.old s }
{
    if bytes.len() != SETTINGS {
        return;
    }
    let table = s.table;
    bytes[0..HEAD].copy_from_slice(&switches(s));
    write_table(&mut bytes[HEAD..SETTINGS], table);
}
