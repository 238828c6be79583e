// What the calls for reasons return and write, as bytes.
ghost use Rattle.std.specs.Prelude.{◌≡◌, ◌+◌, ◌/◌, ◌%◌, ◌≤◌, length};
ghost use Rattle.uf2_block.specs.Write.{put_at};
ghost use Rattle.whyapi.specs.WhyBytes.{
  fault_entry,
  fault_other,
  entry_of,
  other_of,
  told_of,
  transfer_told,
  byte_told,
  numbers_over,
  marks_over,
  told_over,
  call_return,
  why_call,
  rule_number,
  place_told,
  place_shown,
  place_call,
};
ghost use Rattle.why.specs.Placed.{placed_number};

use crate::told::ReasonFields;
use transfer::Answer;
use why::{Why, WhyPlace};
use why_causes::{Cause, Reason};
use why_place::{Origin, Rule};
use why_settings::Fault;

// The bytes of a reason and of a transfer.
const REASON: usize = 38;

const TRANSFER: usize = 14;

const WORD: u64 = 4294967296;

fn fault_entry(x: Fault) -> u8
    ensures { result ≡ fault_entry x }
{
    match x {
        Fault::ArchOff | Fault::CountOver => 0,
        Fault::NoSectors(k)
        | Fault::PastFlash(k)
        | Fault::Shares(k, _)
        | Fault::LinksUp(k)
        | Fault::LinksToB(k)
        | Fault::ManyUsers(k)
        | Fault::ReservedUser(k) => k,
    }
}

#[tactic(auto, using(crate::proofs::reason_bytes::Laws::no_other))]
fn fault_other(x: Fault) -> u8
    ensures { result ≡ fault_other x }
{
    let Fault::Shares(_, j) = x else {
        return 0;
    };
    j
}

// The entry that a cause is of.
// Kept, no plainer: `other_of` asks the same of a cause, and reads another number of its fault.
#[tactic(auto, using(crate::proofs::reason_bytes::Laws::no_fault))]
fn entry_of(cause: Cause) -> u8
    ensures { result ≡ entry_of cause }
{
    let Cause::BadSettings(x) = cause else {
        return 0;
    };
    fault_entry(x)
}

// The other entry that it names.
// Kept, no plainer: `entry_of` asks the same of a cause, and reads another number of its fault.
#[tactic(auto, using(crate::proofs::reason_bytes::Laws::no_fault))]
fn other_of(cause: Cause) -> u8
    ensures { result ≡ other_of cause }
{
    let Cause::BadSettings(x) = cause else {
        return 0;
    };
    fault_other(x)
}

// A reason as it is written.
fn told_of(why: Why) -> ReasonFields
    ensures { result ≡ told_of why }
{
    let reason = why.reason;
    let cause = reason.cause;
    let marks = why.entries;
    ReasonFields {
        number: cause.number() as u32,
        got: reason.got,
        against: reason.against,
        entry: entry_of(cause),
        other: other_of(cause),
        marks,
    }
}

// Bytes that are no transfer.
#[tactic(auto, unfolding(crate::specs::WhyBytes::transfer_told))]
fn transfer_told(bytes: &[u8], told: ReasonFields) -> ReasonFields
    ensures { result ≡ transfer_told bytes.now told }
{
    if bytes.len() != TRANSFER {
        return ReasonFields::bare(306, bytes.len() as u64, TRANSFER as u64);
    }
    let tag = bytes[0];
    let kind = bytes[13];
    if 2 < tag {
        return ReasonFields::bare(307, tag as u64, 2);
    }
    if (tag != 0) & (2 < kind) {
        return ReasonFields::bare(307, kind as u64, 2);
    }
    told
}

// What is told of a reason, by its answer's number and the bytes that settings and transfer were read from.
#[tactic(auto, unfolding(crate::specs::WhyBytes::byte_told))]
fn byte_told(number: u8, settings: &[u8], transfer: &[u8], told: ReasonFields) -> ReasonFields
    ensures { result ≡ byte_told number settings.now transfer.now told }
{
    if number == Answer::BadSettings.number() {
        return crate::told::settings_told(settings, told);
    }
    if number == Answer::BadState.number() {
        return transfer_told(transfer, told);
    }
    told
}

// A number of 64 bits, the lower 32 first.
fn put_wide(out: &mut [u8], at: usize, value: u64)
    requires { at ≤ 12 }
    ensures { out.new ≡ put_at (put_at out.old at (value % 4294967296)) (at + 4) (value / 4294967296) }
{
    uf2_block::put(out, at, (value % WORD) as u32);
    uf2_block::put(out, at + 4, (value / WORD) as u32);
}

// The condition's number and the two numbers.
#[tactic(auto, unfolding(crate::specs::WhyBytes::numbers_over))]
fn put_numbers(out: &mut [u8], number: u32, got: u64, against: u64)
    ensures { out.new ≡ numbers_over out.old number got against }
{
    uf2_block::put(out, 0, number);
    put_wide(out, 4, got);
    put_wide(out, 12, against);
}

// The entries and the marks.
fn put_marks(out: &mut [u8], entry: u8, other: u8, marks: [u8; 16])
    requires { length out.old ≡ 38 }
    ensures { out.new ≡ marks_over out.old entry other marks }
{
    let pair = [entry, other];
    out[20..22].copy_from_slice(&pair);
    out[22..38].copy_from_slice(&marks);
}

// A reason, where there are bytes for it.
#[tactic(auto, using(crate::proofs::reason_bytes::Laws::told_other, crate::proofs::reason_bytes::Laws::told_put))]
fn put_told(out: &mut [u8], told: ReasonFields)
    ensures { out.new ≡ told_over out.old told }
{
    if out.len() != REASON {
        return;
    }
    let marks = told.marks;
    put_numbers(out, told.number, told.got, told.against);
    put_marks(out, told.entry, told.other, marks);
}

// What a call returns of a reason, which it writes.
#[tactic(auto, using(crate::proofs::reason_bytes::Laws::why_told))]
pub fn tell(why: Why, settings: &[u8], transfer: &[u8], out: &mut [u8]) -> u32
    ensures { call_return result out.new ≡ why_call settings.now transfer.now why out.old }
{
    let reason = why.reason;
    let cause = reason.cause;
    let number = cause.answer().number();
    let told = told_of(why);
    let shown = byte_told(number, settings, transfer, told);
    put_told(out, shown);
    transfer_layout::results::returned(number, why.discarded)
}

fn rule_number(rule: Rule) -> u32
    ensures { result ≡ rule_number rule }
{
    match rule {
        Rule::Absolute => 1,
        Rule::NoTable => 2,
    }
}

// What is written of a place: the refusal; or 1 where absolute is allowed, 2 where there is no table, or 3 with the pass and the entry.
fn place_told(placed: Result<Origin, Reason>, marks: [u8; 16]) -> ReasonFields
    ensures { result ≡ place_told placed marks }
{
    match placed {
        Err(reason) => told_of(Why {
            reason,
            discarded: false,
            entries: marks,
        }),
        Ok(Origin::Whole(rule)) => ReasonFields {
            marks,
            ..ReasonFields::bare(rule_number(rule), 0, 0)
        },
        Ok(Origin::Entry { pass, entry }) => ReasonFields {
            entry,
            marks,
            ..ReasonFields::bare(3, pass as u64, 0)
        },
    }
}

// The refusal's number, and 0 for a place that is found.
fn place_number(placed: Result<Origin, Reason>) -> u8
    ensures { result ≡ placed_number placed }
{
    match placed {
        Ok(_) => 0,
        Err(x) => x.cause.answer().number(),
    }
}

// Bytes that are no settings are named as that.
#[tactic(auto, unfolding(crate::specs::WhyBytes::place_shown))]
fn place_shown(number: u8, settings: &[u8], told: ReasonFields) -> ReasonFields
    ensures { result ≡ place_shown number settings.now told }
{
    if number == Answer::BadSettings.number() {
        return crate::told::settings_told(settings, told);
    }
    told
}

// The same of a place.
#[tactic(auto, using(crate::proofs::reason_bytes::Laws::place_told_lem))]
pub fn tell_place(why: WhyPlace, settings: &[u8], out: &mut [u8]) -> u32
    ensures { call_return result out.new ≡ place_call settings.now why out.old }
{
    let placed = why.placed;
    let marks = why.entries;
    let number = place_number(placed);
    let told = place_told(placed, marks);
    let shown = place_shown(number, settings, told);
    put_told(out, shown);
    number as u32
}
