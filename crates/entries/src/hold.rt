// Holds.
ghost use Rattle.std.specs.Prelude.{◌≡◌};
ghost use Rattle.rules.specs.Entries.{is_held, is_read, is_written, forbids, joined, less_one};
ghost use Rattle.rules.specs.Allowed.{HoldAllowed};

use rules::entry::Hold;
use rules::request::Access;

const MOST_READERS: u64 = 65535;

pub fn is_held(h: Hold) -> bool
    ensures { result ≡ is_held h }
{
    !matches!(h, Hold::Unheld)
}

// Held by readers.
pub fn is_read(h: Hold) -> bool
    ensures { result ≡ is_read h }
{
    matches!(h, Hold::Readers(_))
}

// Held for writing.
pub fn is_written(h: Hold) -> bool
    ensures { result ≡ is_written h }
{
    matches!(h, Hold::Writer)
}

// Whether the hold forbids one more: a further reader is refused at 65,535.
pub fn forbids(h: Hold, access: Access) -> bool
    ensures { result ≡ forbids h access }
{
    match (h, access) {
        (Hold::Unheld, _) => false,
        (Hold::Readers(n), Access::Reading) => MOST_READERS <= n,
        (Hold::Readers(_), Access::Writing) | (Hold::Writer, _) => true,
    }
}

// One hold more.
pub fn joined(access: Access, h: Hold) -> Hold
    requires { HoldAllowed h }
    ensures { result ≡ joined access h }
{
    match (access, h) {
        (Access::Reading, Hold::Unheld) => Hold::Readers(1),
        (Access::Reading, Hold::Readers(n)) => Hold::Readers(n + 1),
        (Access::Reading, Hold::Writer) | (Access::Writing, _) => Hold::Writer,
    }
}

// One hold less.
pub fn less_one(h: Hold) -> Hold
    ensures { result ≡ less_one h }
{
    match h {
        Hold::Unheld | Hold::Readers(0..=1) | Hold::Writer => Hold::Unheld,
        Hold::Readers(n) => Hold::Readers(n - 1),
    }
}
