// Tests of a request's numbers and of the mode, the default threshold, and the byte count.
ghost use Rattle.std.specs.Prelude.{◌≡◌, ◌+◌, ◌*◌, ◌≤◌, min, ltb};
ghost use Rattle.rules.specs.Limits.{count_stop, default_threshold, most_size, most_rows};
ghost use Rattle.rules.specs.Refusals.{bad_address, bad_size, is_alone, is_standby, is_lead};

use settings::Mode;

const ALL_ONES: u64 = u64::MAX;

const MOST_SIZE: u64 = 134217728;

const DEFAULT_THRESHOLD: u64 = 262144;

const COUNT_STOP: u64 = 1099511627776;

pub fn bad_address(address: u64) -> bool
    ensures { result ≡ bad_address address }
{
    address == ALL_ONES
}

pub fn bad_size(size: u64) -> bool
    ensures { result ≡ bad_size size }
{
    (size == 0) | (MOST_SIZE < size)
}

// Fewer than 3 x (2 x rows + 1) words are lent.
pub fn too_few_words(rows: usize, lent: usize) -> bool
    requires { rows ≤ most_rows }
    ensures { result ≡ ltb lent (3 * (2 * rows + 1)) }
{
    lent < 3 * (2 * rows + 1)
}

pub fn is_alone(mode: Mode) -> bool
    ensures { result ≡ is_alone mode }
{
    mode == Mode::Alone
}

pub fn is_standby(mode: Mode) -> bool
    ensures { result ≡ is_standby mode }
{
    mode == Mode::Standby
}

pub fn is_lead(mode: Mode) -> bool
    ensures { result ≡ is_lead mode }
{
    mode == Mode::Lead
}

// The dirty-byte threshold by default.
pub fn default_threshold() -> u64
    ensures { result ≡ default_threshold }
{
    DEFAULT_THRESHOLD
}

// The byte count with a size more, within its stop.
pub fn count_with(size: u64, count: u64) -> u64
    requires { size ≤ most_size }
    ensures { result ≡ min (count + size) count_stop }
{
    count.saturating_add(size).min(COUNT_STOP)
}
