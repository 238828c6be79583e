// Does what an arrival holds stand in the memory? It reads, and writes nothing.
#![tactic(auto)]

ghost use Rattle.std.specs.Prelude.{◌≡◌, length};
ghost use Rattle.laws.specs.Numbered.{numbered};
ghost use Rattle.memory.specs.Flash.{payload_of};
ghost use Rattle.arrival.specs.Arrive.{buffer_of};
ghost use Rattle.uf2_verify.specs.Stands.{
  stand_number,
  memory_at,
  same_page,
  page_stands,
  body_stands,
  told_by,
  stand_of,
  known_stand,
};

use memory::flash::Flash;
use partitions::Settings;
use transfer::{Answer, Kind, Transfer};
use uf2_checks::{Body, Lengths, PlacedBlock};
use uf2_known::Known;

// What is told of an arrival that no row refuses.
#[derive(Clone, Copy)]
pub enum Stand {
    Stands,
    Differs,
}

// The number of what is told of an arrival: of a refusal its own.
pub fn number(told: Result<Stand, Answer>) -> u8
    ensures { result ≡ stand_number told }
{
    match told {
        Err(answer) => answer.number(),
        Ok(Stand::Stands) => 95,
        Ok(Stand::Differs) => 96,
    }
}

// Are two pages the same? Every byte is read, so that the loop has no branch.
fn same_page(a: &[u8], b: &[u8]) -> bool
    requires a_len { length a.now ≡ 256 }
    requires other { length b.now ≡ 256 }
    ensures { result ≡ same_page a.now b.now }
{
    let mut same = true;
    for i in 0..Flash::PAYLOAD {
        same = same & (a[i] == b[i]);
    }
    same
}

// Does the payload of an arrival stand in a buffer at this address?
fn page_stands(buffer: &[u8], at: usize, arrival: &[u8]) -> bool
    ensures { result ≡ page_stands buffer.now at (payload_of arrival.now) }
{
    if arrival.len() < Flash::TO {
        return false;
    }
    if Flash::LAST < at {
        return false;
    }
    let e = at + Flash::PAYLOAD;
    if buffer.len() < e {
        return false;
    }
    same_page(&buffer[at..e], &arrival[Flash::FROM..Flash::TO])
}

// In the buffer of its kind.
fn page_in(kind: Kind, at: usize, arrival: &[u8], flash: &[u8], main: &[u8], xip: &[u8]) -> bool
    ensures { result ≡ page_stands (buffer_of kind (memory_at flash.now main.now xip.now)) at (payload_of arrival.now) }
{
    match kind {
        Kind::Flash => page_stands(flash, at, arrival),
        Kind::MainRam => page_stands(main, at, arrival),
        Kind::XipRam => page_stands(xip, at, arrival),
    }
}

// What a block holds, in the buffer of its kind.
fn body_stands(
    kind: Kind,
    body: Body,
    arrival: &[u8],
    flash: &[u8],
    main: &[u8],
    xip: &[u8],
) -> bool
    ensures { result ≡ body_stands (memory_at flash.now main.now xip.now) kind body (payload_of arrival.now) }
{
    match body {
        Body::Page(at) => page_in(kind, at, arrival, flash, main, xip),
        Body::Note => true,
    }
}

// A block that has passed the rows.
fn compared(
    placed: PlacedBlock,
    arrival: &[u8],
    flash: &[u8],
    main: &[u8],
    xip: &[u8],
) -> Result<Stand, Answer>
    ensures { result ≡ told_by (body_stands (memory_at flash.now main.now xip.now) placed.head.kind placed.body (payload_of arrival.now)) }
{
    let head = placed.head;
    let kind = head.kind;
    let body = placed.body;
    if body_stands(kind, body, arrival, flash, main, xip) {
        return Ok(Stand::Stands);
    }
    Ok(Stand::Differs)
}

// The rows in their order, and the comparison. What the settings and the lengths say is handed in.
pub fn stands_known(
    known: Known,
    arrival: &[u8],
    flash: &[u8],
    main: &[u8],
    xip: &[u8],
) -> Result<Stand, Answer>
    ensures { numbered stand_number result ≡ numbered stand_number (known_stand known (memory_at flash.now main.now xip.now) arrival.now) }
{
    if !known.right {
        return Err(Answer::BadBuffers);
    }
    if !known.good {
        return Err(Answer::BadSettings);
    }
    let lens = Lengths {
        flash: flash.len(),
        main: main.len(),
        xip: xip.len(),
    };
    let fresh = Transfer::new();
    let rooms = known.rooms;
    let placed = uf2_checks::block_checks::screen(rooms, lens, fresh, arrival)?;
    compared(placed, arrival, flash, main, xip)
}

// Does what the arrival holds stand in the memory?
pub fn stands(
    settings: Settings,
    arrival: &[u8],
    flash: &[u8],
    main: &[u8],
    xip: &[u8],
) -> Result<Stand, Answer>
    ensures { numbered stand_number result ≡ numbered stand_number (stand_of settings (memory_at flash.now main.now xip.now) arrival.now) }
{
    let lens = Lengths {
        flash: flash.len(),
        main: main.len(),
        xip: xip.len(),
    };
    let known = uf2_known::known_of(settings, lens, Known::SEEN, Known::SECTORS, arrival);
    stands_known(known, arrival, flash, main, xip)
}
