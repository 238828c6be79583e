// A trace of what a site sent: records of the answer and "discarded" that the site got, each with its arrival. One piece of it is replayed.
ghost use Rattle.std.specs.Prelude.{◌≡◌};
ghost use Rattle.uf2_receiver.specs.Receiver.{lent_at, left_at, world};
ghost use Rattle.trace_replay.specs.Trace.{piece_return, piece_of};

use partitions::Settings;
use trace_piece::PieceError;
use transfer::Transfer;

// Kept, C interface: the five buffers are lent one by one, as the calls for C lend them.
// One piece of a trace: it is looked at, and taken where it is a record that says what we answer: then the next transfer. Else nothing changes.
pub fn replay_piece(
    settings: Settings,
    transfer: Transfer,
    piece: &[u8],
    flash: &mut [u8],
    seen: &mut [u8],
    sectors: &mut [u8],
    main: &mut [u8],
    xip: &mut [u8],
) -> Result<Transfer, PieceError>
    ensures { piece_return transfer result (left_at flash.new seen.new sectors.new main.new xip.new) ≡ piece_of settings (world transfer (lent_at flash.old seen.old sectors.old main.old xip.old)) piece.now }
{
    trace_piece::comparing::judge(settings, transfer, piece, flash, seen, sectors, main, xip)?;
    let taken = uf2_receiver::take(
        settings,
        transfer,
        &piece[1..],
        flash,
        seen,
        sectors,
        main,
        xip,
    );
    Ok(taken.transfer)
}
