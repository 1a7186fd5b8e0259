// Hexadecimal digits: those of a line read as bytes, and bytes written as digits.
ghost use Rattle.std.specs.Prelude.{◌≡◌, ◌*◌, ◌<◌, ◌≤◌, length, IfSome};
ghost use Rattle.rules.specs.Line.{digit_value, byte_of, digit, hex_line, refusal_line};
ghost use Rattle.frame.specs.Hex.{of_option, RequestRead};
ghost use Rattle.frame.specs.Printing.{Printed};

/// The limits of a request's line.
#[derive(Clone, Copy, Debug)]
pub struct Request {}

impl Request {
    /// The digits of a line at most, and the refusal number of one that has more or is none.
    pub const MAX_DIGITS: usize = 8192;

    pub const REFUSED: u32 = 7;

    /// The bytes of such a line at most; and the digits that a program keeps of a line, one more than are read.
    pub const MAX_BYTES: usize = 4096;

    pub const KEPT: usize = 8193;
}

fn digit_value(c: u8) -> Option<u8>
    ensures value { of_option result ≡ digit_value c }
    ensures small { IfSome result (λ d. d < 16) }
{
    match c {
        b'0'..=b'9' => Some(c - b'0'),
        b'a'..=b'f' => Some(c - b'a' + 10),
        b'A'..=b'F' => Some(c - b'A' + 10),
        _ => None,
    }
}

fn byte_value(high: u8, low: u8) -> Option<u8>
    ensures { of_option result ≡ byte_of (digit_value high) (digit_value low) }
{
    Some(digit_value(high)? * 16 + digit_value(low)?)
}

/// The bytes of a line, into the start of `out`; how many they are. Of a line that has another character, those in front of it
/// are stored.
pub fn request_bytes(line: &[u8], out: &mut [u8]) -> Option<usize>
    requires { 4096 ≤ length out.old }
    ensures { RequestRead line.now out.old out.new result }
{
    if Request::MAX_DIGITS < line.len() {
        return None;
    }
    if line.len() % 2 != 0 {
        return None;
    }
    let n = line.len() / 2;
    for i in 0..n {
        out[i] = byte_value(line[2 * i], line[2 * i + 1])?;
    }
    Some(n)
}

fn digit_code(n: u8) -> u8
    requires { n < 16 }
    ensures { result ≡ digit n }
{
    if n < 10 { b'0' + n } else { b'a' - 10 + n }
}

/// Writes the digits of `bytes` at the start of `out`, and answers the place after them.
pub fn put_hex(bytes: &[u8], out: &mut [u8]) -> usize
    requires { 2 * length bytes.now ≤ length out.old }
    ensures printed { Printed (hex_line bytes.now) out.old result out.new }
    ensures place { result ≡ 2 * length bytes.now }
{
    for (i, byte) in bytes.iter().enumerate() {
        out[2 * i] = digit_code(*byte / 16);
        out[2 * i + 1] = digit_code(*byte % 16);
    }
    2 * bytes.len()
}

/// Writes "-" and the number at the start of `out`, and answers the place after them.
pub fn put_refusal(number: u32, out: &mut [u8]) -> usize
    requires { (number < 10) × (2 ≤ length out.old) }
    ensures { Printed (refusal_line number) out.old result out.new }
{
    out[0] = b'-';
    out[1] = b'0' + number as u8;
    2
}
