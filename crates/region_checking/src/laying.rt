// The final bytes of a region, and their digest.
ghost use Rattle.std.specs.Prelude.{◌≡◌, ◌/◌, length};
ghost use Rattle.md5_digest.specs.Md5.{md5_of};
ghost use Rattle.uf2_block.specs.Regions.{same_digest};
ghost use Rattle.file_check.specs.Regions.{laid_on, laying, in_turn, final_of};

use uf2_block::Region;

// The payload of an arrival that is data in a region is put at its place there.
#[tactic(auto, using(crate::proofs::Laws::inside_low), unfolding(file_check::specs::Regions::laid_on))]
fn lay_piece(region: Region, arrival: &[u8], bytes: &mut [u8])
    ensures { bytes.new ≡ laid_on region arrival.now bytes.old }
{
    if !crate::inside::is_inside(region, arrival) {
        return;
    }
    let address = uf2_block::field(arrival, 12) as usize;
    let start = region.start as usize;
    let at = address - start;
    memory::flash::store(bytes, at, arrival);
}

// The payloads of every piece in a region are put at their places.
// Kept, no plainer: as in `marking`, one call of `each_piece` with a step of its own.
fn lay(region: Region, file: &[u8], bytes: &mut [u8])
    ensures { bytes.new ≡ in_turn (laying file.now region) bytes.old (length file.now / 512) }
{
    crate::turns::each_piece(
        file,
        bytes,
        &|k, c| { lay_piece(region, crate::inside::piece(file, k), c) },
    );
}

// Have the final bytes of a region the digest that it names? As many bytes as the region has are lent.
#[tactic(auto, unfolding(file_check::specs::Regions::final_of))]
pub(crate) fn digest_right(region: Region, file: &[u8], bytes: &mut [u8]) -> bool
    requires { length bytes.old ≡ region.len }
    ensures { result ≡ same_digest (md5_of (final_of file.now region)) region }
{
    memory::fill::fill(bytes, 255);
    lay(region, file, bytes);
    uf2_block::regions::same_digest(md5_digest::hash(bytes), region)
}
