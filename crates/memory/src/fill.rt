// Every byte of a lent slice set to one value: a map cleared, a sector erased.
ghost use Rattle.std.specs.Prelude.{◌≡◌, length};
ghost use Rattle.memory.specs.Many.{many};

// Sets every byte to v.
#[tactic(auto, unfolding(crate::specs::Many::many))]
pub fn fill(bytes: &mut [u8], v: u8)
    ensures { bytes.new ≡ many (length bytes.old) v }
{
    bytes.fill(v);
}
