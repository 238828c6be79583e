// What a line leaves of a reader's bytes: those of the next reader where the answer changes it, else as they were lent.
ghost use Rattle.std.specs.Prelude.{◌≡◌};
ghost use Rattle.uhex_layout.specs.Kept.{has_failed, changes, kept_reader};

use uhex_effects::Reader;
use uhex_grammar::{Answer, ReaderState};

// Has the reader failed?
pub fn has_failed(state: ReaderState) -> bool
    ensures { result ≡ has_failed state }
{
    matches!(state, ReaderState::Failed(_))
}

// An answer that changes a reader, which had failed before or not.
pub fn changes(failed: bool, answer: Answer) -> bool
    ensures { result ≡ changes failed answer }
{
    let n = answer.number();
    ((32 <= n) & (n <= 35)) | (answer.is_failure() & !failed)
}

// The next reader, where it changed.
pub fn keep_reader(reader: &mut [u8], changed: bool, next: Reader)
    ensures { reader.new ≡ kept_reader reader.old changed next }
{
    if changed {
        crate::write_reader(reader, next);
    }
}
