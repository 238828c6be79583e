// The packed store of settings, read from bytes.
#![tactic(auto)]

pub mod head_bits;
pub mod write;

ghost use Rattle.std.specs.Prelude.{◌≡◌, ◌+◌, ◌*◌, ◌≤◌, cond, length};
ghost use Rattle.laws.specs.Sets.{any};
ghost use Rattle.laws.specs.Numbered.{numbered};
ghost use Rattle.laws.specs.Packing.{unpacked};
ghost use Rattle.partitions.specs.Table.{table_of};
ghost use Rattle.settings_store.specs.Store.{
  head_widths,
  head_in,
  entry_of,
  settings_of,
  stray_at,
  read_head,
  read_of,
  read_number,
};

use crate::write::StoreError;
use partitions::{Arch, Entry, Settings};
use store_entry::chunk_bits::ENTRY;

// The bytes of the head.
const HEAD: usize = 2;

// The head's two bytes as one number.
#[tactic(auto, using(crate::proofs::Cases::head_two))]
fn head_in(s: &[u8]) -> u16
    requires { 2 ≤ length s.now }
    ensures { head_in s.now ≡ unpacked head_widths result }
{
    u16::from_be_bytes([s[0], s[1]])
}

// The first n entries of a store of that version, where none of them is stray.
fn scan(s: &[u8], version: u8, n: usize) -> Option<[Entry; Settings::ENTRIES]>
    requires { (n ≤ 16) × (2 + 22 * n ≤ length s.now) }
    ensures { result ≡ cond (any n (stray_at s.now version)) None (Some (table_of (entry_of s.now) n)) }
{
    let e = Entry::blank();
    let mut table = [e; Settings::ENTRIES];
    for k in 0..n {
        let a = HEAD + ENTRY * k;
        let z = a + ENTRY;
        if store_entry::stray::stray(&s[a..z], version) {
            return None;
        }
        let e = store_entry::unpack(&s[a..z]);
        table[k] = e;
    }
    Some(table)
}

#[tactic(auto, unfolding(laws::specs::Packing::unpacked, laws::specs::Packing::total))]
fn settings_of(x: u16, table: [Entry; Settings::ENTRIES]) -> Settings
    ensures { result ≡ settings_of (unpacked head_widths x) table }
{
    Settings {
        table,
        arm: x / 16 % 2 == 1,
        riscv: x / 8 % 2 == 1,
        current: Arch::from(x / 4 % 2 == 1),
        auto_switch: x / 64 % 2 == 1,
        absolute: x / 32 % 2 == 1,
        count: (x / 128 % 32) as u8,
    }
}

// The checks of the head, and then of the entries.
fn read_head(b: &[u8], x: u16, flash_len: usize) -> Result<Settings, StoreError>
    ensures { result ≡ read_head (unpacked head_widths x) b.now flash_len }
{
    let version = (x / 4096 % 16) as u8;
    if !((version == 1) | (version == 2)) {
        return Err(StoreError::BadVersion);
    }
    let n = (x / 128 % 32) as usize;
    if Settings::ENTRIES < n {
        return Err(StoreError::BadBits);
    }
    if b.len() != HEAD + ENTRY * n {
        return Err(StoreError::BadLength);
    }
    let Some(table) = scan(b, version, n) else {
        return Err(StoreError::BadBits);
    };
    if (x % 4 != 0) | ((version == 2) & !crate::write::no_restart_in(table, n)) {
        return Err(StoreError::BadBits);
    }
    let settings = settings_of(x, table);
    if !partitions::validity::good(settings, flash_len) {
        return Err(StoreError::BadSettings);
    }
    Ok(settings)
}

// The number of a refusal, and 0 for settings that are read.
pub fn number(read: Result<Settings, StoreError>) -> u8
    ensures { result ≡ read_number read }
{
    match read {
        Ok(_) => 0,
        Err(error) => error.number(),
    }
}

// The settings that a store holds, for a flash of that length.
pub fn read(bytes: &[u8], flash_len: usize) -> Result<Settings, StoreError>
    ensures { numbered read_number result ≡ numbered read_number (read_of bytes.now flash_len) }
{
    if !memory::flash::right_length(flash_len) {
        return Err(StoreError::BadBuffers);
    }
    if bytes.len() < HEAD {
        return Err(StoreError::BadLength);
    }
    read_head(bytes, head_in(bytes), flash_len)
}
