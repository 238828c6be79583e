// The regions that a file names (02, L9): what the second check of a file answers.
ghost use Rattle.std.specs.Prelude.{◌≡◌};
ghost use Rattle.file_check.specs.Regions.{region_number, regions_number};

use crate::FileFault;

// What is wrong with a region. The first number is the piece that names it; the second is another piece in it, or a sector of it counted from 0.
#[derive(Clone, Copy)]
pub enum RegionFault {
    OtherRegion(usize, usize),
    BareSector(usize, usize),
    OtherDigest(usize),
}

// Kept, no plainer: a valid file that names no region is neither a fault nor a file whose regions are right, so there are two answers here.
// What a file comes to that may name regions: `As` is the answer of the first check, where that is not `Guarded`, and `Named` what its regions come to.
#[derive(Clone, Copy)]
pub enum RegionsChecked {
    As(Result<(), FileFault>),
    Named(Result<(), RegionFault>),
}

// The number of what the regions of a file come to: 89 where every one is right.
pub fn number(checked: Result<(), RegionFault>) -> u8
    ensures { result ≡ region_number checked }
{
    match checked {
        Ok(()) => 89,
        Err(RegionFault::OtherRegion(_, _)) => 90,
        Err(RegionFault::BareSector(_, _)) => 91,
        Err(RegionFault::OtherDigest(_)) => 92,
    }
}

impl RegionsChecked {
    // The number of what is wrong; 89 where every region is right.
    pub fn number(self) -> u8
        ensures { result ≡ regions_number self }
    {
        match self {
            RegionsChecked::As(checked) => crate::number(checked),
            RegionsChecked::Named(checked) => number(checked),
        }
    }
}
