// Where the lines of a plain file's data are written.
ghost use Rattle.std.specs.Prelude.{◌≤◌};

// An index from which sums do not wrap, and the type of the records.
#[derive(Clone, Copy)]
pub struct Place {
    pub at: usize,
    pub kind: u8,
    pub ghost near: { at ≤ 9223372036854775807 },
}
