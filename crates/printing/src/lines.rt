// The lines of a listing, part by part.
// The length comes first, since 34 writes nothing: a Display tells none, and `write!` to a lent buffer would stop halfway.
ghost use Rattle.std.specs.Prelude.{◌≡◌, ◌+◌, ◌^◌, ◌≤◌, ◌<◌, length};
ghost use Rattle.text.specs.Buffer.{Puts};
ghost use Rattle.text.specs.Result.{need_place};
ghost use Rattle.printing.specs.Lines.{is_plain, hex_digit, escape, escaped, decimal, CountsDigits, numbered, line_text, WritesPart};

use text::copy::copy_into;
use text::error::MatError;

// A part of a line other than a name.
// Refused has the check's number alone, which is all that its line shows.
#[derive(Clone, Copy, Debug, PartialEq, Eq)]
pub enum LinePart {
    Names(u32), // names N, end of line
    Refused(u32), // refused N, end of line
    TooLong, // input too long, end of line
    Object(u32), // object ID, space
    Property, // prop, space
    Quote, // "
    Heap(u32), // space, heap V, end of line
    Inline(u32), // space, inline V, end of line
    Name, // space, name, space
    End, // end of line
}

// Whether a line shows a name's byte as it is.
fn is_plain(byte: u8) -> bool
    ensures { result ≡ is_plain byte }
{
    (33..=126).contains(&byte) && byte != b'"' && byte != b'\\'
}

// The small hexadecimal digit of a number below 16.
fn hex_digit(digit: u8) -> u8
    requires { digit < 16 }
    ensures { result ≡ hex_digit digit }
{
    if digit < 10 {
        b'0' + digit
    } else {
        b'a' + (digit - 10)
    }
}

// The length of what shows a byte.
#[tactic(auto, unfolding(crate::specs::Lines::escape))]
fn escape_length(byte: u8) -> usize
    ensures { result ≡ length (escape byte) }
{
    if is_plain(byte) { 1 } else { 3 }
}

// Writes what shows a byte to the start of out, and returns how many bytes that are.
fn put_escape(byte: u8, out: &mut [u8]) -> usize
    requires { length (escape byte) ≤ length out.old }
    ensures { Puts out.old 0 (escape byte) result out.new }
{
    if is_plain(byte) {
        out[0] = byte;
        return 1;
    }
    let shown = [b'\\', hex_digit(byte / 16), hex_digit(byte % 16)];
    copy_into(&shown, out, 0)
}

// The length that a name's bytes need. Three bytes for each can pass 64 bits: then it is the largest number, which no output has.
fn escaped_need(name: &[u8]) -> usize
    ensures { result ≡ need_place (length (escaped name.now)) }
{
    let mut n: usize = 0;
    for byte in name {
        n = n.saturating_add(escape_length(*byte));
    }
    n
}

// Writes a name's bytes to the start of out, and returns how many bytes show them.
fn put_escaped(name: &[u8], out: &mut [u8]) -> usize
    requires { length (escaped name.now) ≤ length out.old }
    ensures { Puts out.old 0 (escaped name.now) result out.new }
{
    let mut o: usize = 0;
    for byte in name {
        o += put_escape(*byte, &mut out[o..]);
    }
    o
}

// The bytes of a name as a line shows them, at the start of out.
pub fn write_escaped(name: &[u8], out: &mut [u8]) -> Result<usize, MatError>
    ensures { WritesPart (escaped name.now) out.old result out.new }
{
    let need = escaped_need(name);
    if out.len() < need {
        return Err(MatError::OutputTooShort(need as u64));
    }
    Ok(put_escaped(name, out))
}

// The number of decimal digits of a value.
fn decimal_length(value: u32) -> usize
    ensures { CountsDigits value result }
{
    match value.checked_ilog10() {
        Some(k) => k as usize + 1,
        None => 1,
    }
}

// Writes the decimal digits of a value over out. Division gives the last one first.
// By index: the loop's invariant says from which one on the digits stand.
fn put_decimal(value: u32, out: &mut [u8])
    requires { length out.old ≡ length (decimal value) }
    ensures { out.new ≡ decimal value }
{
    let mut v = value;
    for i in (0..out.len()).rev() {
        out[i] = (48 + v % 10) as u8;
        v /= 10;
    }
}

// A word at the start of out.
// Check 34 stands in each of the three: a frame for it would take the writing as a closure and its promise as a parameter.
fn write_word(word: &[u8], out: &mut [u8]) -> Result<usize, MatError>
    ensures { WritesPart word.now out.old result out.new }
{
    let need = word.len();
    if out.len() < need {
        return Err(MatError::OutputTooShort(need as u64));
    }
    Ok(copy_into(word, out, 0))
}

// A number between two words, at the start of out. The words are short, so that the need fits 64 bits.
fn write_numbered(start: &[u8], value: u32, end: &[u8], out: &mut [u8]) -> Result<usize, MatError>
    requires { length start.now + length end.now < 2 ^ 32 }
    ensures { WritesPart (numbered start.now value end.now) out.old result out.new }
{
    let digits_end = start.len() + decimal_length(value);
    let need = digits_end + end.len();
    if out.len() < need {
        return Err(MatError::OutputTooShort(need as u64));
    }
    copy_into(start, out, 0);
    put_decimal(value, &mut out[start.len()..digits_end]);
    Ok(copy_into(end, out, digits_end))
}

// A part of a line at the start of out.
// Public, with a promise over the bytes of out, and by the cases of line_text: a match, and no Display.
pub fn write_part(part: LinePart, out: &mut [u8]) -> Result<usize, MatError>
    ensures { WritesPart (line_text part) out.old result out.new }
{
    match part {
        LinePart::Names(n) => write_numbered(b"names ", n, b"\n", out),
        LinePart::Refused(n) => write_numbered(b"refused ", n, b"\n", out),
        LinePart::TooLong => write_word(b"input too long\n", out),
        LinePart::Object(id) => write_numbered(b"object ", id, b" ", out),
        LinePart::Property => write_word(b"prop ", out),
        LinePart::Quote => write_word(b"\"", out),
        LinePart::Heap(v) => write_numbered(b" heap ", v, b"\n", out),
        LinePart::Inline(v) => write_numbered(b" inline ", v, b"\n", out),
        LinePart::Name => write_word(b" name ", out),
        LinePart::End => write_word(b"\n", out),
    }
}
