// A transfer as bytes: how it goes in, and how it comes back. Every byte slice is read; include/uf2_receiver.h has the layout for C.
#![tactic(auto)]

pub mod results;
pub mod states;

ghost use Rattle.std.specs.Prelude.{◌≡◌, length};
ghost use Rattle.transfer_layout.specs.Transfers.{
  transfer_from,
  transfer_bytes,
  head_bytes,
  with_transfer,
};

use transfer::{Head, State, Transfer};

// The bytes of a transfer.
const TRANSFER: usize = 14;

// The transfer that bytes are.
pub fn read_transfer(bytes: &[u8]) -> Transfer
    ensures { result ≡ transfer_from bytes.now }
{
    if bytes.len() != TRANSFER {
        let state = crate::states::none();
        return Transfer { state };
    }
    let number = bytes[13];
    let head = Head::new(
        crate::states::kind(number),
        uf2_block::field(bytes, 1),
        uf2_block::field(bytes, 5),
    );
    let state = crate::states::state(bytes[0], number, head, uf2_block::field(bytes, 9));
    Transfer { state }
}

fn write(bytes: &mut [u8], tag: u8, family: u32, total: u32, count: u32, kind: u8)
    requires { length bytes.old ≡ 14 }
    ensures { bytes.new ≡ transfer_bytes tag family total count kind }
{
    bytes[0] = tag;
    uf2_block::put(bytes, 1, family);
    uf2_block::put(bytes, 5, total);
    uf2_block::put(bytes, 9, count);
    bytes[13] = kind;
}

// A transfer that is not Idle.
fn write_head(bytes: &mut [u8], tag: u8, head: Head, count: u32)
    requires { length bytes.old ≡ 14 }
    ensures { bytes.new ≡ head_bytes tag head count }
{
    let kind = head.kind;
    write(bytes, tag, head.family, head.total, count, kind.number());
}

// Writes a transfer, where there are bytes for it.
pub fn write_transfer(bytes: &mut [u8], next: Transfer)
    ensures { bytes.new ≡ with_transfer bytes.old next.state }
{
    if bytes.len() != TRANSFER {
        return;
    }
    let state = next.state;
    match state {
        State::Idle => write(bytes, 0, 0, 0, 0, 0),
        State::Running(run) => {
            let head = run.head;
            write_head(bytes, 1, head, run.count);
        }
        State::Done(head) => write_head(bytes, 2, head, head.total),
    }
}
