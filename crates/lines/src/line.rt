// Lines.
ghost use Rattle.std.specs.Prelude.{◌≡◌, ◌≤◌, ◌+◌, eqb, length, drop};
ghost use Rattle.std.specs.List.{position};
ghost use Rattle.lines.specs.Lines.{line_of, length_of_line};

use crate::number::number_at;

// What a line asks for.
#[derive(Clone, Copy)]
pub struct Insert {
    pub address: u64,
    pub size: u64,
}

// A line, without its newline.
#[tactic(auto, unfolding(crate::specs::Lines::line_of))]
pub fn read_line(s: &[u8]) -> Option<Insert>
    ensures { result ≡ line_of s.now }
{
    if !s.starts_with(b"insert ") {
        return None;
    }
    let address = number_at(s, 7)?;
    if s.len() <= address.next || s[address.next] != b' ' {
        return None;
    }
    let size = number_at(s, address.next + 1)?;
    if size.next != s.len() {
        return None;
    }
    Some(Insert {
        address: address.value,
        size: size.value,
    })
}

// The place of the first newline.
fn newline(s: &[u8]) -> Option<usize>
    ensures { result ≡ position (λ b. eqb b 10) s.now }
{
    s.iter().position(|b| *b == b'\n')
}

// Where the line that starts at a place ends: at its newline, or at the text's end.
pub fn line_end(s: &[u8], at: usize) -> usize
    requires { at ≤ length s.now }
    ensures { result ≡ at + length_of_line (drop at s.now) }
{
    match newline(&s[at..]) {
        Some(n) => at + n,
        None => s.len(),
    }
}
