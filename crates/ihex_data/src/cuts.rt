// Where the data of a plain Intel Hex file is cut: between records with another upper half of the address, which an 04 tells, and in a record.
ghost use Rattle.std.specs.Prelude.{◌≡◌};
ghost use Rattle.ihex_data.specs.Cuts.{fresh_tally, changes, first_of, crosses};

// the addresses that one 04 reaches
const REACH: usize = 65536;

// The upper halves of the first piece's address and of the latest's.
#[derive(Clone, Copy)]
pub struct Uppers {
    pub first: usize,
    pub latest: usize,
}

// What is known of the pieces so far: the upper halves, where there is a piece, and how many characters their lines have.
#[derive(Clone, Copy)]
pub struct Tally {
    pub uppers: Option<Uppers>,
    pub len: usize,
}

impl Tally {
    pub fn fresh() -> Tally
        ensures { result ≡ fresh_tally }
    {
        Tally {
            uppers: None,
            len: 0,
        }
    }

    // An 04 stands before a piece with this upper half.
    pub fn changes(self, upper: usize) -> bool
        ensures { result ≡ changes self upper }
    {
        match self.uppers {
            Some(uppers) => uppers.latest != upper,
            None => false,
        }
    }

    // The upper half of the first piece's address, or another where there is no piece.
    pub(crate) fn first_or(self, other: usize) -> usize
        ensures { result ≡ first_of self.uppers other }
    {
        match self.uppers {
            Some(uppers) => uppers.first,
            None => other,
        }
    }
}

// Do n bytes from an address on reach past the next multiple of 65,536?
pub fn crosses(address: usize, n: usize) -> bool
    ensures { result ≡ crosses address n }
{
    let room = REACH - address % REACH;
    room < n
}
