// The extension tags of a UF2 block (02, L4): a reader that keeps hold of the block it reads and its place, giving tag after tag.
#![tactic(auto)]

pub mod one_tag;
pub mod room;

ghost use Rattle.std.specs.Prelude.{◌≡◌};
ghost use Rattle.laws.specs.Numbered.{numbered};
ghost use Rattle.uf2_tags.specs.Tag.{contents_of, answer_number};
ghost use Rattle.uf2_tags.specs.Room.{tag_at, first_place};
ghost use Rattle.uf2_tags.specs.Search.{stops, find_of};
ghost use Rattle.uf2_tags.specs.Reader.{next_place, step_at, move_number, started, stepped, step_number};

use crate::one_tag::{Answer, Tag};

// An answer, and the place after it.
#[derive(Clone, Copy)]
pub struct Move {
    pub answer: Answer,
    pub next: usize,
}

// The reader: the block that it reads, and its place, an offset in the block.
#[derive(Clone, Copy)]
pub struct Tags<'a> {
    pub block: &'a [u8],
    pub at: usize,
}

// The reader after a call, and the answer.
#[derive(Clone, Copy)]
pub struct Step<'a> {
    pub reader: Tags<'a>,
    pub answer: Answer,
}

// The place after an answer: after a tag the next, else the same.
fn place_after(at: usize, answer: Answer) -> usize
    ensures { result ≡ next_place at answer }
{
    match answer {
        Ok(Some(tag)) => tag.next,
        Ok(None) => at,
        Err(_) => at,
    }
}

// What a call answers at a place, and the place after it.
pub fn step_at(block: &[u8], at: usize) -> Move
    ensures { numbered move_number result ≡ numbered move_number (step_at block.now at) }
{
    let answer = crate::room::tag_at(block, at);
    let next = place_after(at, answer);
    Move { answer, next }
}

impl<'a> Tags<'a> {
    pub fn new(block: &'a [u8]) -> Tags<'a>
        ensures { result ≡ started block.entry }
    {
        Tags {
            block,
            at: crate::room::first_place(block),
        }
    }

    pub fn next(self) -> Step<'a>
        ensures { numbered step_number result ≡ numbered step_number (stepped self.entry) }
    {
        let m = step_at(self.block, self.at);
        let answer = m.answer;
        Step {
            reader: Tags {
                block: self.block,
                at: m.next,
            },
            answer,
        }
    }
}

// What the first call of a fresh reader answers. Who calls this holds no reader.
pub fn first(block: &[u8]) -> Answer
    ensures { numbered answer_number result ≡ numbered answer_number (tag_at block.now (first_place block.now)) }
{
    let s = Tags::new(block).next();
    s.answer
}

// Does a search for a type end at this answer?
fn stops_at(kind: u32, answer: Answer) -> bool
    ensures { result ≡ stops kind answer }
{
    match answer {
        Ok(Some(tag)) => tag.kind == kind,
        Ok(None) => true,
        Err(_) => true,
    }
}

// The first tag of a type, or the end or the refusal before any.
// Kept, no plainer: a step is one tag, and the tag says where the next stands.
pub fn find(block: &[u8], kind: u32) -> Answer
    ensures { numbered answer_number result ≡ numbered answer_number (find_of block.now kind) }
{
    let mut at = crate::room::first_place(block);
    loop {
        let m = step_at(block, at);
        let answer = m.answer;
        if stops_at(kind, answer) {
            return answer;
        }
        at = m.next;
    }
}

// The contents of a tag, as far as they stand in the block.
pub fn contents(block: &[u8], tag: Tag) -> &[u8]
    ensures { result.now ≡ contents_of block.now tag }
{
    let from = tag.start.min(block.len());
    let len = (tag.len as usize).min(block.len() - from);
    let end = from + len;
    &block[from..end]
}
