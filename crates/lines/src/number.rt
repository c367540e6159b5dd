// Decimal numbers.
ghost use Rattle.std.specs.Prelude.{◌≡◌, ◌≤◌, length, cond, ltb};
ghost use Rattle.std.specs.Char.{is_ascii_digit};
ghost use Rattle.lines.specs.Lines.{number, number_at};

#[derive(Clone, Copy)]
pub struct Number {
    pub value: u64,
    // The place after it.
    pub next: usize,
}

// Whether a byte is a decimal digit.
fn is_digit(b: u8) -> bool
    ensures { result ≡ is_ascii_digit b }
{
    b.is_ascii_digit()
}

// The number of the digits from one place to another, if there are any.
fn number_of(at: usize, next: usize, value: u64) -> Option<Number>
    ensures { result ≡ cond (ltb at next) (Some (number value next)) None }
{
    if at < next {
        Some(Number { value, next })
    } else {
        None
    }
}

// The decimal number that starts at a place.
pub fn number_at(s: &[u8], at: usize) -> Option<Number>
    requires { at ≤ length s.now }
    ensures { result ≡ number_at s.now at }
{
    let mut value: u64 = 0;
    for i in at..s.len() {
        let b = s[i];
        if !is_digit(b) {
            return number_of(at, i, value);
        }
        let digit = u64::from(b - b'0');
        value = value.checked_mul(10)?.checked_add(digit)?;
    }
    number_of(at, s.len(), value)
}
