// What the screening of an arrival speaks of: windows and their bytes, what the settings say of a family, and a block that passes.
#![tactic(auto)]

pub mod block_checks;
pub mod block_kind;
pub mod comments;
pub mod family;
pub mod numbers;

ghost use Rattle.std.specs.Prelude.{◌≡◌};
ghost use Rattle.uf2_checks.specs.Screen.{extent_of};

use memory::flash::Flash;
use placement::Place;
use transfer::{Head, Kind};

// The lengths of the lent flash, main RAM and XIP RAM.
#[derive(Clone, Copy)]
pub struct Lengths {
    pub flash: usize,
    pub main: usize,
    pub xip: usize,
}

// What the settings say of a family: its place in the flash, and whether it may go to RAM.
#[derive(Clone, Copy)]
pub struct Rooms {
    pub flash: Option<Place>,
    pub ram: bool,
}

impl Lengths {
    // The bytes of main RAM and of XIP RAM.
    pub const MAIN_RAM: usize = 532480;

    pub const XIP_RAM: usize = 16384;
}

// What a block holds: a page, with its storage address, or a comment, which has none.
// Kept, no plainer: a comment is no page that is missing, as None would say.
#[derive(Clone, Copy)]
pub enum Body {
    Page(usize),
    Note,
}

// A block that passes: its head, its number, and what it holds.
#[derive(Clone, Copy)]
pub struct PlacedBlock {
    pub head: Head,
    pub number: u32,
    pub body: Body,
}

// The bytes of a window.
pub fn extent(kind: Kind) -> usize
    ensures { result ≡ extent_of kind }
{
    match kind {
        Kind::Flash => Flash::MAX,
        Kind::MainRam => Lengths::MAIN_RAM,
        Kind::XipRam => Lengths::XIP_RAM,
    }
}
