// The C interface for tools on a host: files made of images, digests, and one Universal Hex file from two. What a board links is `capi`, the
// calls for traces are in `traceapi`.
#![tactic(auto)]

ghost use Rattle.std.specs.Prelude.{◌≡◌};
ghost use Rattle.uf2_make.specs.Uf2block.{block_over};
ghost use Rattle.uf2_make.specs.Uf2check.{check_of, make_number};
ghost use Rattle.toolsapi.specs.Tools.{make_result, make_bytes, make_regions_bytes, digest_over};
ghost use Rattle.toolsapi.specs.Join.{join_return, join_bytes};

use uf2_make::checks;
use uf2_make::lead::Fields;

const DIGEST: usize = 16;

// What would come of an image of so many bytes: 0, or 50 to 53.
#[unsafe(no_mangle)]
pub extern "C" fn uf2_make_check(image_len: usize, start: u32, output_len: usize) -> u32
    ensures { result ≡ make_number (check_of image_len start output_len) }
{
    u32::from(checks::number(checks::check(image_len, start, output_len)))
}

// One block of a file, for a tool that makes it page by page.
#[unsafe(no_mangle)]
pub extern "C" fn uf2_make_block(
    address: u32,
    number: u32,
    total: u32,
    family: u32,
    page: &[u8],
    block: &mut [u8],
)
    ensures { block.new ≡ block_over block.old address number total family page.now }
{
    let fields = Fields {
        address,
        number,
        total,
        family,
    };
    uf2_make::page_block::write_block(block, fields, page);
}

// The whole file of an image: 0, or 50 to 53 and nothing is written.
#[unsafe(no_mangle)]
pub extern "C" fn uf2_make(image: &[u8], family: u32, start: u32, output: &mut [u8]) -> u32
    ensures { make_result result output.new ≡ make_bytes image.now family start output.old }
{
    u32::from(checks::number(uf2_make::make(image, family, start, output)))
}

// The same, and each block names its sector as its region.
#[unsafe(no_mangle)]
pub extern "C" fn uf2_make_regions(image: &[u8], family: u32, start: u32, output: &mut [u8]) -> u32
    ensures { make_result result output.new ≡ make_regions_bytes image.now family start output.old }
{
    u32::from(checks::number(uf2_make_regions::make(image, family, start, output)))
}

// The MD5 digest of bytes, where there are 16 bytes for it.
#[unsafe(no_mangle)]
pub extern "C" fn uf2_md5(bytes: &[u8], digest: &mut [u8])
    ensures { digest.new ≡ digest_over digest.old bytes.now }
{
    if digest.len() != DIGEST {
        return;
    }
    uf2_block::digest_bytes::put_digest(digest, md5_digest::hash(bytes));
}

// One Universal Hex file from a plain Intel Hex file for V1 and one for V2.
#[unsafe(no_mangle)]
pub extern "C" fn uhex_join(v1: &[u8], v2: &[u8], output: &mut [u8]) -> u64
    ensures { join_return result output.new ≡ join_bytes v1.now v2.now output.old }
{
    uhex_join::answers::joined_result(uhex_join::join(v1, v2, output))
}
