// An image of whole pages that a UF2 file is to be made of: the checks, and the refusals.
ghost use Rattle.std.specs.Prelude.{◌≡◌};
ghost use Rattle.laws.specs.Numbered.{numbered};
ghost use Rattle.uf2_make.specs.Uf2check.{bad_image, bad_start, check_of, error_number, make_number};

use crate::PAGE;
use uf2_block::Block;

// The address after the last of the window.
const WINDOW_END: usize = 0x12000000;

// Why no file is made of an image, by the number of the refusal.
#[derive(Clone, Copy, PartialEq, Eq)]
pub enum MakeError {
    BadImage = 50,
    BadStart = 51,
    PastWindow = 52,
    ShortOutput = 53,
}

impl MakeError {
    pub fn number(self) -> u8
        ensures { result ≡ error_number self }
    {
        self as u8
    }
}

// The number of a refusal, and 0 for a file that is made.
pub fn number(made: Result<u32, MakeError>) -> u8
    ensures { result ≡ make_number made }
{
    match made {
        Ok(_) => 0,
        Err(error) => error.number(),
    }
}

fn bad_image(len: usize) -> bool
    ensures { result ≡ bad_image len }
{
    (len == 0) | (len % PAGE != 0)
}

fn bad_start(start: usize) -> bool
    ensures { result ≡ bad_start start }
{
    (start < Block::WINDOW) | ((WINDOW_END <= start) | (start % PAGE != 0))
}

// What would come of an image of so many bytes. The start's distance from the window's end is compared, since the sum of start and length
// need not fit.
pub fn check(image_len: usize, start: u32, output_len: usize) -> Result<u32, MakeError>
    ensures { numbered make_number result ≡ numbered make_number (check_of image_len start output_len) }
{
    let first = start as usize;
    if bad_image(image_len) {
        return Err(MakeError::BadImage);
    }
    if bad_start(first) {
        return Err(MakeError::BadStart);
    }
    if WINDOW_END - first < image_len {
        return Err(MakeError::PastWindow);
    }
    let pages = image_len / PAGE;
    if output_len < Block::ARRIVAL * pages {
        return Err(MakeError::ShortOutput);
    }
    Ok(pages as u32)
}
