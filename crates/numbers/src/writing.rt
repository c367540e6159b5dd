// What writing a message came to, as numbers.
ghost use Rattle.std.specs.Prelude.{◌≡◌};
ghost use Rattle.numbers.specs.Answers.{written_numbers};

use crate::raw::RawWritten;
use answers::refusal_number;
use rules::answer::Refusal;

impl From<Result<u64, Refusal>> for RawWritten {
    ghost from_gives = { λ written w. w ≡ written_numbers written };

    fn from(written: Result<u64, Refusal>) -> RawWritten {
        match written {
            Ok(bytes) => RawWritten { number: 0, bytes },
            Err(x) => RawWritten {
                number: refusal_number(x),
                bytes: 0,
            },
        }
    }
}
