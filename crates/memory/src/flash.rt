// The lent flash: whether its length is right, a sector erased, a payload stored.
ghost use Rattle.std.specs.Prelude.{◌≡◌};
ghost use Rattle.memory.specs.Flash.{flash_length, erase_at, payload_of, store_at};

// A flash by its length. It names the sizes; the bytes themselves are lent as a slice.
#[derive(Clone, Copy)]
pub struct Flash {
    pub len: usize,
}

impl Flash {
    pub const SECTOR: usize = 4096;

    pub const PAYLOAD: usize = 256;

    pub const MIN: usize = 4096;

    pub const MAX: usize = 33554432;

    // The last address after which a payload has room among numbers of 64 bits.
    pub const LAST: usize = 18446744073709551359;

    // The bytes of an arrival that are its payload.
    pub const FROM: usize = 32;

    pub const TO: usize = 288;
}

// May a flash have this length?
#[tactic(auto, unfolding(crate::specs::Flash::flash_length))]
pub fn right_length(len: usize) -> bool
    ensures { result ≡ flash_length len }
{
    (len % Flash::SECTOR == 0) & (Flash::MIN <= len) & (len <= Flash::MAX)
}

// Sets the bytes of a sector to 0xFF. A sector past the end changes nothing.
pub fn erase(flash: &mut [u8], sector: usize)
    ensures { flash.new ≡ erase_at flash.old sector }
{
    if sector < flash.len() / Flash::SECTOR {
        let a = sector * Flash::SECTOR;
        let e = a + Flash::SECTOR;
        crate::fill::fill(&mut flash[a..e], 255);
    }
}

// Stores the payload of an arrival at an address of the flash, or of another lent buffer. Where either does not fit nothing changes.
pub fn store(flash: &mut [u8], at: usize, arrival: &[u8])
    ensures { flash.new ≡ store_at flash.old at (payload_of arrival.now) }
{
    if arrival.len() < Flash::TO {
        return;
    }
    // the end is compared, and no difference of the length: that would be a copy of the length, which is lent, on the stack
    if Flash::LAST < at {
        return;
    }
    let e = at + Flash::PAYLOAD;
    if flash.len() < e {
        return;
    }
    flash[at..e].copy_from_slice(&arrival[Flash::FROM..Flash::TO]);
}
