// What the line of a record is written of: a byte's two digits, upper case, and the room that a line takes.
ghost use Rattle.std.specs.Prelude.{◌≡◌, ◌<◌, [], ◌∷◌};
ghost use Rattle.ihex_record.specs.Write.{digit_text, bytes_text};
ghost use Rattle.ihex_write.specs.Room.{has_room};

use ihex_record::Record;

// The upper-case digit of a number below 16.
fn digit(n: u8) -> u8
    requires { n < 16 }
    ensures { result ≡ digit_text n }
{
    if n < 10 { b'0' + n } else { b'A' + (n - 10) }
}

// A byte's two digits, high first.
pub fn digits(b: u8) -> [u8; 2]
    ensures { result ≡ bytes_text (b ∷ []) }
{
    [digit(b / 16), digit(b % 16)]
}

// Is there a line of a record with n bytes of data, and does it fit into so much room, from an index on?
pub fn has_room(room: usize, at: usize, n: usize) -> bool
    ensures { result ≡ has_room room at n }
{
    n <= Record::MAX && 12 + 2 * n <= room.saturating_sub(at)
}
