// Arrivals taken one after the other. Settings and the lengths of what is lent are the same for all of them: they are judged once, and what
// the settings say of a family is asked once for a run of arrivals of one family (`judged`).
#![tactic(auto)]

pub mod opening;

ghost use Rattle.std.specs.Prelude.{◌≡◌, ◌≤◌, length};
ghost use Rattle.arrival.specs.Arrive.{receive_of};
ghost use Rattle.uf2_receiver.specs.Receiver.{lent, lent_at, left_at, world};
ghost use Rattle.uf2_batch.specs.Batch.{fewer, batch_left, batch_of};
ghost use Rattle.uf2_batch.specs.Parts.{Knows, Judges, turn_left, turn_of};

use partitions::{Family, Settings};
use transfer::Transfer;
use uf2_block::Block;
use uf2_known::Known;
use uf2_known::judged::FamilyRooms;

// What arrivals come to, beside their results: how many were taken, the next transfer, and whether a block was accepted.
#[derive(Clone, Copy)]
pub struct Batch {
    pub number: usize,
    pub transfer: Transfer,
    pub accepted: bool,
}

// What one arrival of many comes to: what the settings say of its family, the next transfer, its result, and whether its block was accepted.
#[derive(Clone, Copy)]
struct Turn {
    kept: FamilyRooms,
    transfer: Transfer,
    result: u8,
    accepted: bool,
}

// One whole arrival of many. `right` and `good` are the words of rows 1 and 2.
fn take_next(
    right: bool,
    good: bool,
    settings: Settings,
    before: FamilyRooms,
    transfer: Transfer,
    arrival: &[u8],
    flash: &mut [u8],
    seen: &mut [u8],
    sectors: &mut [u8],
    main: &mut [u8],
    xip: &mut [u8],
) -> Turn
    requires judges { Judges settings (lent flash.old seen.old sectors.old main.old xip.old) right good }
    requires knows { Knows settings (length flash.old) before }
    requires whole { length arrival.now ≡ 512 }
    ensures xip_value { turn_left result (left_at flash.new seen.new sectors.new main.new xip.new) ≡ turn_of (receive_of settings (world transfer (lent_at flash.old seen.old sectors.old main.old xip.old)) arrival.now) }
    ensures knows { Knows settings (length flash.old) result.kept }
{
    let family = uf2_block::field(arrival, 28);
    let kept = uf2_known::judged::next(before, settings, flash.len(), family);
    let rooms = kept.rooms;
    let known = Known { right, good, rooms };
    let r = uf2_receiver::take_known(known, transfer, arrival, flash, seen, sectors, main, xip);
    let answer = r.answer;
    let next = r.transfer;
    Turn {
        kept,
        transfer: next,
        result: transfer_layout::results::result(answer, r.discarded),
        accepted: transfer_layout::results::is_acceptance(answer),
    }
}

// Whole arrivals are taken, as many as there are results for: their number, and the result of each.
pub fn take_all(
    settings: Settings,
    transfer: Transfer,
    arrivals: &[u8],
    results: &mut [u8],
    flash: &mut [u8],
    seen: &mut [u8],
    sectors: &mut [u8],
    main: &mut [u8],
    xip: &mut [u8],
) -> Batch
    ensures { batch_left result results.new (left_at flash.new seen.new sectors.new main.new xip.new) ≡ batch_of settings (world transfer (lent_at flash.old seen.old sectors.old main.old xip.old)) arrivals.now results.old }
{
    let n = (arrivals.len() / Block::ARRIVAL).min(results.len());
    let first = crate::opening::judge_lent(settings, Family::DATA, flash, seen, sectors, main, xip);
    let mut kept = first.kept;
    let mut next = transfer;
    let mut accepted = false;
    for i in 0..n {
        let from = i * Block::ARRIVAL;
        let to = from + Block::ARRIVAL;
        let turn = take_next(
            first.right,
            first.good,
            settings,
            kept,
            next,
            &arrivals[from..to],
            flash,
            seen,
            sectors,
            main,
            xip,
        );
        kept = turn.kept;
        next = turn.transfer;
        results[i] = turn.result;
        accepted = accepted | turn.accepted;
    }
    Batch {
        number: n,
        transfer: next,
        accepted,
    }
}
