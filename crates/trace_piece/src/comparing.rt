// What comes of one piece of a trace: its arrival is looked at, and what is recorded compared with what we answer. Nothing is written.
ghost use Rattle.std.specs.Prelude.{◌≡◌};
ghost use Rattle.uf2_receiver.specs.Receiver.{lent_at, world};
ghost use Rattle.trace_piece.specs.Compared.{piece_of};

use crate::PieceError;
use partitions::Settings;
use transfer::Transfer;

// Kept, C interface: the five buffers are lent one by one, as the calls for C lend them.
// What comes of a piece: its arrival is looked at where it is a record.
pub fn judge(
    settings: Settings,
    transfer: Transfer,
    piece: &[u8],
    flash: &[u8],
    seen: &[u8],
    sectors: &[u8],
    main: &[u8],
    xip: &[u8],
) -> Result<(), PieceError>
    ensures { result ≡ (piece_of settings (world transfer (lent_at flash.now seen.now sectors.now main.now xip.now)) piece.now).answer }
{
    if crate::is_bad(piece) {
        return Err(PieceError::Bad);
    }
    let looked = uf2_receiver::looking::look(
        settings,
        transfer,
        &piece[1..],
        flash,
        seen,
        sectors,
        main,
        xip,
    );
    crate::compared(piece[0], looked.answer, looked.discarded)
}
