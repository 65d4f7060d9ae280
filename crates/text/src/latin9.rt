// ISO 8859-15, also called Latin-9, which displays take: a text as one byte a character, and such bytes as a text again.
ghost use Rattle.std.specs.Prelude.{◌≡◌, not, ◌+◌, ◌≤◌, ◌<◌, eqb, length};
ghost use Rattle.text.specs.Buffer.{put};
ghost use Rattle.text.specs.Latin9.{code_point, byte_of, latin9_bytes, export_latin9, latin9_text, import_latin9};
ghost use Rattle.text.specs.Stages.Latin9.{IsTable, size_by, CharacterAt, BytesFit};
ghost use Rattle.text.specs.Replies.{outcome, Writes};
ghost use Rattle.text.specs.Result.{map_result, values_of};
ghost use Rattle.text.specs.Unicode.{utf8};
ghost use Rattle.text.specs.Utf8.{value_at};

use crate::copy::copy_into;
use crate::error::MatError;
use crate::utf8::{highest, is_text_from, put_utf8, value_at, whole_length};

// The code point of a byte.
pub fn code_point(byte: u8) -> u32
    ensures { result ≡ code_point byte }
{
    point_in(&CODE_POINTS, byte)
}

// The same by the table, which is lent: a function that names a constant array has a copy of it made at each call.
fn point_in(points: &[u16], byte: u8) -> u32
    requires { IsTable points.now }
    ensures { (result ≡ code_point byte) × (result < 65536) }
{
    u32::from(points[usize::from(byte)])
}

// Whether the byte with this number has another code point.
// A match, here and in byte_of, and no search of the table, of which a function that names it has a copy made.
#[tactic(auto, unfolding(crate::specs::Latin9::code_point, crate::specs::Latin9::point_in, crate::specs::Latin9::exceptions))]
fn gave_way(value: u32) -> bool
    ensures { result ≡ not (eqb (code_point value) value) }
{
    matches!(value, 0xA4 | 0xA6 | 0xA8 | 0xB4 | 0xB8 | 0xBC | 0xBD | 0xBE)
}

// A code point below 0x100 is that of the byte with its number or, where this byte has another one, of no byte.
#[tactic(auto, using(crate::proofs::latin9::Export::bytes_of), unfolding(crate::specs::Latin9::byte_of, crate::specs::Latin9::byte_from, crate::specs::Latin9::code_point, crate::specs::Latin9::point_in, crate::specs::Latin9::exceptions))]
fn byte_of(value: u32) -> Option<u8>
    ensures { result ≡ byte_of value }
{
    if value < 0x100 {
        if !gave_way(value) {
            return Some(value as u8);
        }
        return None;
    }
    match value {
        0x20AC => Some(0xA4),
        0x0160 => Some(0xA6),
        0x0161 => Some(0xA8),
        0x017D => Some(0xB4),
        0x017E => Some(0xB8),
        0x0152 => Some(0xBC),
        0x0153 => Some(0xBD),
        0x0178 => Some(0xBE),
        _ => None,
    }
}

// The byte of the character of so many bytes at a position, which is not ASCII. None of four bytes has one.
// A text and a position, as in utf8.rt.
fn byte_at(text: &[u8], at: usize, size: usize) -> Option<u8>
    requires { CharacterAt text.now at size }
    ensures { result ≡ byte_of (value_at text.now at size) }
{
    if 3 < size {
        return None;
    }
    byte_of(value_at(text, at, size))
}

// The number of bytes that a text is exported to, which is that of its characters, or the refusal by 30 or 36.
// A `while`, here and in put_export, since a step is as long as its sequence. whole_length is the step that this walk shares with those of
// utf8.rt, as said there.
fn export_length(text: &[u8]) -> Result<usize, MatError>
    ensures { outcome result ≡ map_result length (latin9_bytes text.now) }
{
    if highest(text) < 0x80 {
        return Ok(text.len());
    }
    let mut n: usize = 0;
    let mut i: usize = 0;
    while i < text.len() {
        if text[i] < 0x80 {
            n += 1;
            i += 1;
            continue;
        }
        let Some(size) = whole_length(text, i) else {
            return Err(MatError::InvalidText(0));
        };
        let Some(_) = byte_at(text, i, size) else {
            // 30 is put to the whole text before 36.
            if is_text_from(text, i + size) {
                return Err(MatError::UnmappableCharacter(n as u64));
            }
            return Err(MatError::InvalidText(0));
        };
        n += 1;
        i += size;
    }
    Ok(n)
}

// The bytes of a character by its first, which is not ASCII. No character of four has a byte, so that none is asked for.
fn size_by(lead: u8) -> usize
    ensures { result ≡ size_by lead }
{
    if lead < 0xE0 { 2 } else { 3 }
}

// Writes the bytes of a text to the start of out, which is long enough for them.
fn put_export(text: &[u8], out: &mut [u8])
    requires { BytesFit text.now out.old }
    ensures { out.new ≡ put out.old 0 (values_of (latin9_bytes text.now)) }
{
    let mut i: usize = 0;
    let mut o: usize = 0;
    while i < text.len() {
        if text[i] < 0x80 {
            out[o] = text[i];
            o += 1;
            i += 1;
            continue;
        }
        let size = size_by(text[i]);
        let Some(byte) = byte_at(text, i, size) else {
            // This cannot be: BytesFit says that the text is exported.
            return;
        };
        out[o] = byte;
        o += 1;
        i += size;
    }
}

// Writes a UTF-8 text to the start of out, one byte a character.
pub fn export_latin9(text: &[u8], out: &mut [u8]) -> Result<usize, MatError>
    ensures { Writes (export_latin9 text.now) out.old result out.new }
{
    let n = export_length(text)?;
    if out.len() < n {
        return Err(MatError::OutputTooShort(n as u64));
    }
    // A text with as many bytes as characters is ASCII.
    if n == text.len() {
        copy_into(text, out, 0);
        return Ok(n);
    }
    put_export(text, out);
    Ok(n)
}

// How many bytes more than one the character of a byte has in UTF-8.
fn more_bytes(byte: u8) -> usize
    ensures { (result + 1 ≡ length (utf8 (code_point byte))) × (result ≤ 2) }
{
    if byte < 0x80 {
        return 0;
    }
    if byte == 0xA4 { 2 } else { 1 }
}

// How many bytes more than one each the characters of bytes have. A slice has fewer than 2^63 bytes, so the sum fits 64 bits.
fn more_in(bytes: &[u8]) -> usize
    ensures { length bytes.now + result ≡ length (latin9_text bytes.now) }
{
    if highest(bytes) < 0x80 {
        return 0;
    }
    let mut more: usize = 0;
    for byte in bytes {
        more += more_bytes(*byte);
    }
    more
}

// The length of the text of bytes for an output of so many bytes, or the refusal by 34. The length itself may not fit 64 bits.
// The place of 34 is a number, as C reads it: then the largest.
fn import_length(bytes: &[u8], room: usize) -> Result<usize, MatError>
    ensures { outcome result ≡ map_result length (import_latin9 bytes.now room) }
{
    let Some(n) = bytes.len().checked_add(more_in(bytes)) else {
        return Err(MatError::OutputTooShort(u64::MAX));
    };
    if room < n {
        return Err(MatError::OutputTooShort(n as u64));
    }
    Ok(n)
}

// Writes the text of bytes to the start of out, which is long enough for it.
fn put_import(bytes: &[u8], points: &[u16], out: &mut [u8])
    requires { IsTable points.now × (length (latin9_text bytes.now) ≤ length out.old) }
    ensures { out.new ≡ put out.old 0 (latin9_text bytes.now) }
{
    let mut o: usize = 0;
    for byte in bytes {
        if *byte < 0x80 {
            out[o] = *byte;
            o += 1;
            continue;
        }
        o = put_utf8(point_in(points, *byte), out, o);
    }
}

// Writes the UTF-8 text of bytes, a character each, to the start of text.
pub fn import_latin9(bytes: &[u8], text: &mut [u8]) -> Result<usize, MatError>
    ensures { Writes (import_latin9 bytes.now) text.old result text.new }
{
    let n = import_length(bytes, text.len())?;
    // Bytes that have a byte each are ASCII.
    if n == bytes.len() {
        copy_into(bytes, text, 0);
        return Ok(n);
    }
    put_import(bytes, &CODE_POINTS, text);
    Ok(n)
}

// The code point of each byte: the byte itself but for eight. The program latin9_table makes it from that rule.
const CODE_POINTS: [u16; 256] = [
    0x0000, 0x0001, 0x0002, 0x0003, 0x0004, 0x0005, 0x0006, 0x0007, 0x0008, 0x0009, 0x000A, 0x000B,
    0x000C, 0x000D, 0x000E, 0x000F, 0x0010, 0x0011, 0x0012, 0x0013, 0x0014, 0x0015, 0x0016, 0x0017,
    0x0018, 0x0019, 0x001A, 0x001B, 0x001C, 0x001D, 0x001E, 0x001F, 0x0020, 0x0021, 0x0022, 0x0023,
    0x0024, 0x0025, 0x0026, 0x0027, 0x0028, 0x0029, 0x002A, 0x002B, 0x002C, 0x002D, 0x002E, 0x002F,
    0x0030, 0x0031, 0x0032, 0x0033, 0x0034, 0x0035, 0x0036, 0x0037, 0x0038, 0x0039, 0x003A, 0x003B,
    0x003C, 0x003D, 0x003E, 0x003F, 0x0040, 0x0041, 0x0042, 0x0043, 0x0044, 0x0045, 0x0046, 0x0047,
    0x0048, 0x0049, 0x004A, 0x004B, 0x004C, 0x004D, 0x004E, 0x004F, 0x0050, 0x0051, 0x0052, 0x0053,
    0x0054, 0x0055, 0x0056, 0x0057, 0x0058, 0x0059, 0x005A, 0x005B, 0x005C, 0x005D, 0x005E, 0x005F,
    0x0060, 0x0061, 0x0062, 0x0063, 0x0064, 0x0065, 0x0066, 0x0067, 0x0068, 0x0069, 0x006A, 0x006B,
    0x006C, 0x006D, 0x006E, 0x006F, 0x0070, 0x0071, 0x0072, 0x0073, 0x0074, 0x0075, 0x0076, 0x0077,
    0x0078, 0x0079, 0x007A, 0x007B, 0x007C, 0x007D, 0x007E, 0x007F, 0x0080, 0x0081, 0x0082, 0x0083,
    0x0084, 0x0085, 0x0086, 0x0087, 0x0088, 0x0089, 0x008A, 0x008B, 0x008C, 0x008D, 0x008E, 0x008F,
    0x0090, 0x0091, 0x0092, 0x0093, 0x0094, 0x0095, 0x0096, 0x0097, 0x0098, 0x0099, 0x009A, 0x009B,
    0x009C, 0x009D, 0x009E, 0x009F, 0x00A0, 0x00A1, 0x00A2, 0x00A3, 0x20AC, 0x00A5, 0x0160, 0x00A7,
    0x0161, 0x00A9, 0x00AA, 0x00AB, 0x00AC, 0x00AD, 0x00AE, 0x00AF, 0x00B0, 0x00B1, 0x00B2, 0x00B3,
    0x017D, 0x00B5, 0x00B6, 0x00B7, 0x017E, 0x00B9, 0x00BA, 0x00BB, 0x0152, 0x0153, 0x0178, 0x00BF,
    0x00C0, 0x00C1, 0x00C2, 0x00C3, 0x00C4, 0x00C5, 0x00C6, 0x00C7, 0x00C8, 0x00C9, 0x00CA, 0x00CB,
    0x00CC, 0x00CD, 0x00CE, 0x00CF, 0x00D0, 0x00D1, 0x00D2, 0x00D3, 0x00D4, 0x00D5, 0x00D6, 0x00D7,
    0x00D8, 0x00D9, 0x00DA, 0x00DB, 0x00DC, 0x00DD, 0x00DE, 0x00DF, 0x00E0, 0x00E1, 0x00E2, 0x00E3,
    0x00E4, 0x00E5, 0x00E6, 0x00E7, 0x00E8, 0x00E9, 0x00EA, 0x00EB, 0x00EC, 0x00ED, 0x00EE, 0x00EF,
    0x00F0, 0x00F1, 0x00F2, 0x00F3, 0x00F4, 0x00F5, 0x00F6, 0x00F7, 0x00F8, 0x00F9, 0x00FA, 0x00FB,
    0x00FC, 0x00FD, 0x00FE, 0x00FF,
];
