// Ranges of numbers and fractions. What is no number lies in no range.
ghost use Rattle.std.specs.Prelude.{◌≡◌};
ghost use Rattle.settings.specs.Limits.{within, open_below, unit, size_allowed, cap_allowed};

// The sizes that a cache may have, and the largest cap on one change.
const SMALLEST: u64 = 1024;

const LARGEST: u64 = 134217728;

// In [low, high].
pub fn within(n: u64, low: u64, high: u64) -> bool
    ensures { result ≡ within low high n }
{
    (low..=high).contains(&n)
}

// In (low, high].
pub fn open_below(x: f64, low: f64, high: f64) -> bool
    ensures { result ≡ open_below low high x }
{
    (low < x) & (x <= high)
}

// In [0, 1].
pub fn unit(x: f64) -> bool
    ensures { result ≡ unit x }
{
    (0.0..=1.0).contains(&x)
}

// Whether a maximum or minimum size may be n.
pub fn size_allowed(n: u64) -> bool
    ensures { result ≡ size_allowed n }
{
    within(n, SMALLEST, LARGEST)
}

// Whether a cap may be c.
pub fn cap_allowed(c: Option<u64>) -> bool
    ensures { result ≡ cap_allowed c }
{
    match c {
        None => true,
        Some(n) => n <= LARGEST,
    }
}
