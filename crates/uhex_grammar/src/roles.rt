// The grammar of Universal Hex: what a record is where a reader stands.
ghost use Rattle.std.specs.Prelude.{◌≡◌};
ghost use Rattle.uhex_grammar.specs.declared.ReaderState.TheVariants.{Between, Opened, Inside};
ghost use Rattle.uhex_grammar.specs.Grammar.{data_kind, after_padding, role_of};

use crate::{Boards, ReaderState, Role};
use ihex_record::Record;

// The type of a data record in the section of a board.
#[tactic(auto, unfolding(crate::specs::Grammar::data_kind))]
fn data_kind(board: u16) -> u8
    ensures { result ≡ data_kind board }
{
    if board == Boards::V1 {
        Record::DATA
    } else {
        Record::CUSTOM_DATA
    }
}

// The records that may follow the first 0C of a section.
#[tactic(auto, unfolding(crate::specs::Grammar::after_padding))]
fn after_padding(board: u16, kind: u8) -> Option<Role>
    ensures { result ≡ after_padding board kind }
{
    if kind == Record::PADDED_DATA {
        return Some(Role::Padding(board));
    }
    if kind == Record::OTHER_DATA {
        return Some(Role::Other);
    }
    if kind == Record::BLOCK_END {
        return Some(Role::Closing);
    }
    None
}

// Between sections.
#[tactic(auto, unfolding(crate::specs::Grammar::role_of))]
fn between(kind: u8, len: u8) -> Option<Role>
    ensures { result ≡ role_of Between kind len }
{
    if (kind == Record::EXTENDED_LINEAR) & (len == 2) {
        return Some(Role::Opening);
    }
    if (kind == Record::END_OF_FILE) & (len == 0) {
        return Some(Role::Ending);
    }
    None
}

// After a section's opening 04.
#[tactic(auto, unfolding(crate::specs::Grammar::role_of))]
fn opened(kind: u8, len: u8) -> Option<Role>
    ensures { result ≡ role_of Opened kind len }
{
    if (kind == Record::BLOCK_START) & (2 <= len) {
        return Some(Role::Naming);
    }
    None
}

// In the section of a board, before its first 0C.
#[tactic(auto, unfolding(crate::specs::Grammar::role_of))]
fn inside(board: u16, kind: u8, len: u8) -> Option<Role>
    ensures { result ≡ role_of (Inside board) kind len }
{
    if (kind == Record::EXTENDED_LINEAR) & (len == 2) {
        return Some(Role::Address);
    }
    if kind == data_kind(board) {
        return Some(Role::Data(board));
    }
    after_padding(board, kind)
}

// What a record of a type and a number of data bytes is where a reader stands; none where it is not allowed.
#[tactic(auto, unfolding(crate::specs::Grammar::role_of))]
pub fn role_at(state: ReaderState, kind: u8, len: u8) -> Option<Role>
    ensures { result ≡ role_of state kind len }
{
    match state {
        ReaderState::Between => between(kind, len),
        ReaderState::Opened => opened(kind, len),
        ReaderState::Inside(board) => inside(board, kind, len),
        ReaderState::Padded(board) => after_padding(board, kind),
        ReaderState::Ended | ReaderState::Failed(_) => None,
    }
}
