//! Texts that are put into a buffer, one behind the other.

ghost use Rattle.std.specs.Prelude.{◌≡◌, ◌≤◌, ◌+◌, ◌++◌, length, take, decimal};

use itoa::Buffer;

/// Puts a text into the buffer from a place on, and answers where it ends.
pub fn put_text(buf: &mut [u8], at: usize, text: &[u8]) -> usize
    requires { at + length text.now ≤ length buf.old }
    ensures end { result ≡ at + length text.now }
    ensures size { length buf.new ≡ length buf.old }
    ensures front { take result buf.new ≡ take at buf.old ++ text.now }
{
    let end = at + text.len();
    buf[at..end].copy_from_slice(text);
    end
}

/// Puts a number in decimal digits, of which it has 20 at most.
pub fn put_number(buf: &mut [u8], at: usize, number: u64) -> usize
    requires { at + 20 ≤ length buf.old }
    ensures within { result ≤ at + 20 }
    ensures size { length buf.new ≡ length buf.old }
    ensures front { take result buf.new ≡ take at buf.old ++ decimal number }
{
    let mut digits = Buffer::new();
    put_text(buf, at, digits.format(number).as_bytes())
}
