// The window that an address lies in, and the kind of a block; `screen` has the definitions.
ghost use Rattle.std.specs.Prelude.{◌≡◌};
ghost use Rattle.uf2_checks.specs.Screen.{base_of, is_lent, in_window, window_of, window_kind, own_kind, note_kind};

use crate::Lengths;
use transfer::{Head, Kind, State, Transfer};
use uf2_block::Block;

// Where a window begins, which is where its place's first byte is seen.
pub fn base(kind: Kind) -> usize
    ensures { result ≡ base_of kind }
{
    match kind {
        Kind::Flash => 0x10000000,
        Kind::MainRam => 0x20000000,
        Kind::XipRam => 0x13ffc000,
    }
}

// Is there a buffer for the kind? An empty one is none.
fn is_lent(lens: Lengths, kind: Kind) -> bool
    ensures { result ≡ is_lent lens kind }
{
    match kind {
        Kind::Flash => true,
        Kind::MainRam => lens.main != 0,
        Kind::XipRam => lens.xip != 0,
    }
}

fn in_window(lens: Lengths, kind: Kind, address: usize) -> bool
    ensures { result ≡ in_window lens kind address }
{
    let from = base(kind);
    let len = crate::extent(kind);
    let here = is_lent(lens, kind);
    here & (from <= address) & (address < from + len)
}

// The window that an address lies in, by its kind.
pub fn window_of(lens: Lengths, address: usize) -> Option<Kind>
    ensures { result ≡ window_of lens address }
{
    if in_window(lens, Kind::Flash, address) {
        return Some(Kind::Flash);
    }
    if in_window(lens, Kind::MainRam, address) {
        return Some(Kind::MainRam);
    }
    if in_window(lens, Kind::XipRam, address) {
        return Some(Kind::XipRam);
    }
    None
}

// The kind of a data block, and of one in no window.
pub fn window_kind(window: Option<Kind>) -> Kind
    ensures { result ≡ window_kind window }
{
    window.unwrap_or(Kind::Flash)
}

// The kind of a comment while a transfer runs: the transfer's, where the comment is its own and the kind has a buffer.
fn own_kind(lens: Lengths, head: Head, family: u32, total: u32) -> Kind
    ensures { result ≡ own_kind lens head family total }
{
    let kind = head.kind;
    let lent = is_lent(lens, kind);
    if (head.family == family) & (head.total == total) & lent {
        return kind;
    }
    Kind::Flash
}

// The kind of a comment.
#[tactic(auto, unfolding(crate::specs::Screen::note_kind))]
pub fn note_kind(lens: Lengths, transfer: Transfer, b: Block) -> Kind
    ensures { result ≡ note_kind lens transfer.state b }
{
    let state = transfer.state;
    match state {
        State::Running(run) => own_kind(lens, run.head, b.family, b.total),
        State::Idle | State::Done(_) => Kind::Flash,
    }
}
