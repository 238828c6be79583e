// The head of the packed store of settings: its 16 bits as one number.
ghost use Rattle.std.specs.Prelude.{◌≡◌};
ghost use Rattle.laws.specs.Packing.{packed};
ghost use Rattle.settings_store.specs.Head.{head_widths, head_fields_by};

use partitions::{Arch, Settings};

// The head as one number, where `no_restart` says whether a used entry has "don't restart".
pub fn head_of(s: Settings, no_restart: bool) -> u16
    ensures { result ≡ packed head_widths (head_fields_by no_restart s) }
{
    let a = u64::from(s.auto_switch);
    let b = u64::from(s.absolute);
    let c = u64::from(s.arm);
    let d = u64::from(s.riscv);
    let e = u64::from(s.current == Arch::RiscV);
    let n = u64::from(s.count);
    let version = 1 + u64::from(no_restart);
    let head = version * 4096 + n * 128 + a * 64 + b * 32 + c * 16 + d * 8 + e * 4;
    head as u16
}
