// The packed store of settings, written to bytes.
ghost use Rattle.std.specs.Prelude.{◌≡◌, ◌+◌, ◌*◌, ◌≤◌, length};
ghost use Rattle.laws.specs.Sets.{any};
ghost use Rattle.laws.specs.Numbered.{numbered};
ghost use Rattle.laws.specs.Over.{over};
ghost use Rattle.laws.specs.Rows.{rows};
ghost use Rattle.settings_store.specs.Written.{
  no_restart_at,
  no_restart_in,
  row_at,
  store_of,
  store_number,
  answer_number,
  write_number,
  write_call,
  write_of,
};

use crate::HEAD;
use partitions::{Entry, Settings};
use store_entry::chunk_bits::ENTRY;

// Why a store is not read or written.
#[derive(Clone, Copy, PartialEq, Eq)]
pub enum StoreError {
    BadBuffers,
    BadSettings,
    BadVersion,
    BadLength,
    BadBits,
}

impl StoreError {
    pub fn number(self) -> u8
        ensures { result ≡ store_number self }
    {
        match self {
            StoreError::BadBuffers => 1,
            StoreError::BadSettings => 2,
            StoreError::BadVersion => 40,
            StoreError::BadLength => 41,
            StoreError::BadBits => 42,
        }
    }
}

// The number of a refusal, and 0 for settings that are written.
pub fn number(written: Result<(), StoreError>) -> u8
    ensures { result ≡ answer_number written }
{
    match written {
        Ok(()) => 0,
        Err(error) => error.number(),
    }
}

// Has one of the first n entries "don't restart"?
#[tactic(auto, using(crate::proofs::write::Searches::any_first, crate::proofs::write::Searches::any_next), unfolding(crate::specs::Written::no_restart_at))]
fn any_no_restart(table: [Entry; Settings::ENTRIES], n: usize) -> bool
    requires { n ≤ 16 }
    ensures { result ≡ any n (no_restart_at table) }
{
    let mut found = false;
    for k in 0..n {
        found = found | table[k].no_restart;
    }
    found
}

// Has one of the first n entries of a table of 16 "don't restart"?
pub fn no_restart_in(table: [Entry; Settings::ENTRIES], n: usize) -> bool
    ensures { result ≡ no_restart_in table n }
{
    if Settings::ENTRIES < n {
        return false;
    }
    any_no_restart(table, n)
}

// Writes the used entries, from byte 2 on.
fn write_rows(out: &mut [u8], table: [Entry; Settings::ENTRIES], n: usize)
    requires { (n ≤ 16) × (2 + 22 * n ≤ length out.old) }
    ensures { out.new ≡ over out.old 2 (rows (row_at table) n) }
{
    for k in 0..n {
        let e = table[k];
        let row = store_entry::write::pack(e);
        let a = HEAD + ENTRY * k;
        let z = a + ENTRY;
        out[a..z].copy_from_slice(&row);
    }
}

fn put_store(out: &mut [u8], s: Settings)
    requires { (s.count ≤ 16) × (2 + 22 * s.count ≤ length out.old) }
    ensures { out.new ≡ over out.old 0 (store_of s) }
{
    let table = s.table;
    let n = s.count as usize;
    let x = crate::head_bits::head_of(s, any_no_restart(table, n));
    out[0..HEAD].copy_from_slice(&x.to_be_bytes());
    write_rows(out, table, n);
}

// Writes the store of settings that are good for a flash of that length.
pub fn write(settings: Settings, flash_len: usize, out: &mut [u8]) -> Result<(), StoreError>
    ensures { numbered write_number (write_call result out.new) ≡ numbered write_number (write_of settings flash_len out.old) }
{
    if !memory::flash::right_length(flash_len) {
        return Err(StoreError::BadBuffers);
    }
    if !partitions::validity::good(settings, flash_len) {
        return Err(StoreError::BadSettings);
    }
    let n = settings.count as usize;
    if out.len() < HEAD + ENTRY * n {
        return Err(StoreError::BadLength);
    }
    put_store(out, settings);
    Ok(())
}
