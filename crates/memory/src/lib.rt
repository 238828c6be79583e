// Lent memory: bytes set to one value, marks in a map, a sector of the flash erased, a payload stored, ranges by where they start.
#![tactic(auto)]

pub mod bitmap;
pub mod cells;
pub mod fill;
pub mod flash;
