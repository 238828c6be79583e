// A map of marks in lent bytes: item k is byte k / 8, bit k % 8 counted from the most significant.
ghost use Rattle.std.specs.Prelude.{◌≡◌, length};
ghost use Rattle.memory.specs.Bitmap.{marked_in, with_mark, unmarked};

// Is item k marked? Past the map's end nothing is.
pub fn marked(map: &[u8], k: usize) -> bool
    ensures { result ≡ marked_in map.now k }
{
    let at = k / 8;
    if at < map.len() {
        map[at] & (128 >> (k % 8)) != 0
    } else {
        false
    }
}

// Marks item k. Past the map's end nothing changes.
pub fn mark(map: &mut [u8], k: usize)
    ensures { map.new ≡ with_mark map.old k }
{
    let at = k / 8;
    if at < map.len() {
        map[at] |= 128 >> (k % 8);
    }
}

// Takes every mark away.
#[tactic(auto, unfolding(crate::specs::Bitmap::unmarked))]
pub fn clear(map: &mut [u8])
    ensures { map.new ≡ unmarked (length map.old) }
{
    crate::fill::fill(map, 0);
}
