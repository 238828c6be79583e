// A digest written as bytes.
ghost use Rattle.std.specs.Prelude.{◌≡◌};
ghost use Rattle.uf2_block.specs.Digests.{with_digest};

use md5_digest::Digest;

// The four words of a digest one after the other; in 16 bytes they are the whole (proofs/Laws.antt).
pub fn put_digest(out: &mut [u8], digest: Digest)
    ensures { out.new ≡ with_digest out.old digest }
{
    crate::put(out, 0, digest.a);
    crate::put(out, 4, digest.b);
    crate::put(out, 8, digest.c);
    crate::put(out, 12, digest.d);
}
