// SPDX-License-Identifier: MIT OR Apache-2.0
// Hex digits read, one after another, line after line.
ghost use Rattle.std.specs.Prelude.{◌≡◌, ◌≤◌, eqb, length, get_or};
ghost use Rattle.lines.specs.Read.{number_read};
ghost use Rattle.lines.specs.Nine.{read_nine};

// The number of sixteen bytes, small digits or capital.
pub fn sixteen(digits: &[u8]) -> Option<u64>
    requires { length digits.now ≡ 16 }
    ensures { result ≡ number_read digits.now }
{
    let mut value = 0u64;
    for b in digits {
        let d = char::from(*b).to_digit(16)?;
        value = value * 16 + u64::from(d);
    }
    Some(value)
}

// Whether a line ends at a place: a newline is there, or nothing.
fn is_end(text: &[u8], at: usize) -> bool
    ensures { result ≡ eqb (get_or text.now at 10) 10 }
{
    text.get(at).is_none_or(|b| *b == b'\n')
}

// Nine lines of a text that is as long as they are, with or without the last newline.
pub fn lines(text: &[u8]) -> Option<[u64; 9]>
    requires { (152 ≤ length text.now) × (length text.now ≤ 153) }
    ensures { result ≡ read_nine text.now }
{
    let mut numbers = [0u64; 9];
    for i in 0..9 {
        let end = 17 * i + 16;
        numbers[i] = sixteen(&text[17 * i..end])?;
        if !is_end(text, end) {
            return None;
        }
    }
    Some(numbers)
}
