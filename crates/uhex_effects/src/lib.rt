// A reader of Universal Hex, and a reader with one thing changed. What a good record does to it is a definition here.
#![tactic(auto)]

pub mod data_record;
pub mod effects;
pub mod marks;
pub mod record_effect;

ghost use Rattle.std.specs.Prelude.{◌≡◌};
ghost use Rattle.uhex_effects.specs.Reader.{fresh_of, with_state, with_upper, with_section, with_data, moved_to};

use uhex_grammar::{Boards, ReaderState};

// A reader: its own board, the bytes of the file read so far, where it stands, the latest 04's two bytes, which of V1 and V2 had a
// section, and which gave a data byte.
#[derive(Clone, Copy)]
pub struct Reader {
    pub own: u16,
    pub offset: u32,
    pub state: ReaderState,
    pub upper: u16,
    pub sections_seen: Boards,
    pub data_seen: Boards,
}

// What a good record that is not refused does: it passes, is own data to store, or ends the file.
#[derive(Clone, Copy)]
pub enum Effect {
    Passes(Reader),
    Stores(Reader),
    Ends(Reader),
}

impl Reader {
    // the most bytes of a file and the most bytes of an image
    pub const FILE: usize = 4194304;

    pub const IMAGE: usize = 1048576;

    // the addresses that one 04 reaches
    pub const REACH: usize = 65536;

    pub fn fresh(own: u16) -> Reader
        ensures { result ≡ fresh_of own }
    {
        Reader {
            own,
            offset: 0,
            state: ReaderState::Between,
            upper: 0,
            sections_seen: Boards::none(),
            data_seen: Boards::none(),
        }
    }

    #[tactic(auto, unfolding(crate::specs::Reader::with_state))]
    pub fn with_state(self, state: ReaderState) -> Reader
        ensures { result ≡ with_state self state }
    {
        Reader { state, ..self }
    }

    #[tactic(auto, unfolding(crate::specs::Reader::with_upper))]
    pub fn with_upper(self, upper: u16) -> Reader
        ensures { result ≡ with_upper self upper }
    {
        Reader { upper, ..self }
    }

    #[tactic(auto, unfolding(crate::specs::Reader::with_section))]
    pub fn with_section(self, board: u16) -> Reader
        ensures { result ≡ with_section self board }
    {
        Reader {
            sections_seen: self.sections_seen.with(board),
            ..self
        }
    }

    #[tactic(auto, unfolding(crate::specs::Reader::with_data))]
    pub fn with_data(self, board: u16) -> Reader
        ensures { result ≡ with_data self board }
    {
        Reader {
            data_seen: self.data_seen.with(board),
            ..self
        }
    }

    #[tactic(auto, unfolding(crate::specs::Reader::moved_to))]
    pub fn moved_to(self, offset: u32) -> Reader
        ensures { result ≡ moved_to self offset }
    {
        Reader { offset, ..self }
    }
}
