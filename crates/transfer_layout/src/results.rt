// The result of an arrival, as many takes and the calls for C tell it.
ghost use Rattle.std.specs.Prelude.{◌≡◌};
ghost use Rattle.transfer.specs.Transfer.{number_of};
ghost use Rattle.transfer_layout.specs.Results.{result_of, is_acceptance};

use transfer::Answer;

// The result of an arrival: its answer's number, and 128 more where a running transfer was discarded.
pub fn result(answer: Answer, discarded: bool) -> u8
    ensures { result ≡ result_of (number_of answer) discarded }
{
    returned(answer.number(), discarded) as u8
}

// The same of an answer's number, as a call returns it.
pub fn returned(number: u8, discarded: bool) -> u32
    ensures { result ≡ result_of number discarded }
{
    if discarded {
        return number as u32 + 128;
    }
    number as u32
}

// Is the block accepted?
pub fn is_acceptance(answer: Answer) -> bool
    ensures { result ≡ is_acceptance (number_of answer) }
{
    14 <= answer.number()
}
