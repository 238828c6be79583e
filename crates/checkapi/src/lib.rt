// A file checked before it is sent, for C: a library of its own.
#![tactic(auto)]

pub mod answer_bytes;

ghost use Rattle.std.specs.Prelude.{◌≡◌, length};
ghost use Rattle.memory.specs.Bitmap.{unmarked};
ghost use Rattle.checkapi.specs.CheckCall.{call_return, lengths_with, check_call_of};

use uf2_checks::Lengths;

// What is wrong with a file: its number, and in `told` the piece and the other one. The three maps are left all zero.
#[unsafe(no_mangle)]
pub extern "C" fn uf2_check(
    settings: &[u8],
    file: &[u8],
    flash_len: usize,
    main_len: usize,
    xip_len: usize,
    numbers: &mut [u8],
    cells: &mut [u8],
    offsets: &mut [u8],
    told: &mut [u8],
) -> u32
    ensures told_after { call_return result told.new ≡ check_call_of settings.now (lengths_with flash_len main_len xip_len) (length numbers.old) (length cells.old) (length offsets.old) file.now told.old }
    ensures left { (numbers.new ≡ unmarked (length numbers.old)) × (cells.new ≡ unmarked (length cells.old)) × (offsets.new ≡ unmarked (length offsets.old)) }
{
    let s = settings_layout::read_settings(settings);
    let lens = Lengths {
        flash: flash_len,
        main: main_len,
        xip: xip_len,
    };
    let found = file_checking::check(s, lens, file, numbers, cells, offsets);
    crate::answer_bytes::tell(found, told)
}
