// Records counted by the byte that they begin with: a tally, and the counts of a report with a tally added.
ghost use Rattle.std.specs.Prelude.{◌≡◌, ◌≤◌};
ghost use Rattle.trace_counts.specs.Tally.{number_at, raised, tallied, plus, added_counts};

// A tally: how many records said each number of five bits, and last how many discarded.
pub const TALLY: usize = 33;

// Where a tally has the discards.
// Kept, contract: `tallied` has them in the list of the counts.
pub const DISCARDS: usize = 32;

// How many numbers 32 bits have.
const WORD: usize = 4294967296;

// ---- a tally

// Raises one count of a tally, which wraps after 2^64 records: no trace has so many.
#[tactic(auto, unfolding(crate::specs::Tally::raised))]
fn raise(tally: &mut [usize], at: usize, by: usize)
    ensures { tally.new ≡ raised tally.old at by }
{
    if at < tally.len() {
        tally[at] = tally[at].wrapping_add(by);
    }
}

// One record more, by the byte that it begins with.
#[tactic(auto, unfolding(crate::specs::Tally::tallied))]
pub fn count(tally: &mut [usize], byte: u8)
    ensures { tally.new ≡ tallied tally.old byte }
{
    raise(tally, usize::from(byte / 8), 1);
    raise(tally, DISCARDS, usize::from(byte / 4 % 2));
}

// ---- a tally added

// Kept, no plainer: no answer has the number 6.
// The number of the answer whose count stands at a place: 1 to 5, then 7 to 17.
fn number_at(place: usize) -> usize
    requires { place ≤ 15 }
    ensures { (result ≡ number_at place) × (result ≤ 17) }
{
    if place < 5 { place + 1 } else { place + 2 }
}

// A count with so many more, in 32 bits. Nothing wraps where there is room.
pub fn plus(count: u32, more: usize) -> u32
    ensures { result ≡ plus count more }
{
    count.wrapping_add((more % WORD) as u32)
}

// The counts with those of a tally.
#[tactic(auto, unfolding(crate::specs::Tally::added_counts))]
pub fn added_counts(was: [u32; 16], tally: [usize; TALLY]) -> [u32; 16]
    ensures { result ≡ added_counts was tally 16 }
{
    let mut counts = was;
    for k in 0..16 {
        counts[k] = plus(was[k], tally[number_at(k)]);
    }
    counts
}
