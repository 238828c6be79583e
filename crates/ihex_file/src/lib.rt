// A plain Intel Hex file, a line at a time: where its reading stands, and its end. What a line is, of types 00 to 05 or refused, is a definition
// here.
#![tactic(auto)]

pub mod line;
pub mod lines;
pub mod records;

ghost use Rattle.std.specs.Prelude.{◌≡◌};
ghost use Rattle.laws.specs.Numbered.{numbered};
ghost use Rattle.ihex_file.specs.File.{verdict_number, close_of};
ghost use Rattle.ihex_file.specs.Line.{fresh_plain, with_base, with_end};

use uhex_grammar::Answer;

// Where the reading of a plain file stands: the bytes read so far, the address that the latest 02 or 04 gives, and whether the 01 has been
// read.
#[derive(Clone, Copy)]
pub struct Plain {
    pub offset: u32,
    pub base: u32,
    pub ended: bool,
}

// Data at a linear address: how many bytes of its line's.
#[derive(Clone, Copy)]
pub struct Data {
    pub address: usize,
    pub len: u8,
}

// What a line of a plain file is that is not refused: where the reading stands after it, and the data that it gives.
#[derive(Clone, Copy)]
pub struct Taken {
    pub plain: Plain,
    pub given: Option<Data>,
}

// Why a plain file is refused: a line, by its index from 0, and its answer.
#[derive(Clone, Copy)]
pub struct BadLine {
    pub line: u32,
    pub answer: Answer,
}

impl Plain {
    // the most bytes of a file
    pub const FILE: usize = 4194304;

    // the addresses that one 02 or 04 reaches
    pub const REACH: usize = 65536;

    pub fn fresh() -> Plain
        ensures { result ≡ fresh_plain }
    {
        Plain {
            offset: 0,
            base: 0,
            ended: false,
        }
    }

    pub fn with_base(self, base: u32) -> Plain
        ensures { result ≡ with_base self base }
    {
        Plain { base, ..self }
    }

    pub fn with_end(self) -> Plain
        ensures { result ≡ with_end self }
    {
        Plain {
            ended: true,
            ..self
        }
    }

    // At the end of a file of so many lines, which gave some data byte or none.
    #[tactic(auto, unfolding(crate::specs::File::close_of, crate::specs::File::lines_verdict))]
    pub fn close(self, lines: u32, some: bool) -> Result<(), BadLine>
        ensures { numbered verdict_number result ≡ numbered verdict_number (close_of self lines some) }
    {
        if self.ended {
            if some {
                return Ok(());
            }
            return Err(BadLine {
                line: lines,
                answer: Answer::MissingBoard,
            });
        }
        Err(BadLine {
            line: lines,
            answer: Answer::OutOfPlace,
        })
    }
}
