// UTF-16 as the Unicode Standard, chapter 3, has it: one decoding step, and the UTF-8 text of code units.
ghost use Rattle.std.specs.Prelude.{◌≡◌, ◌<◌, length, is_some};
ghost use Rattle.std.specs.Option.{option_map, unwrap_or};
ghost use Rattle.text.specs.Buffer.{put};
ghost use Rattle.text.specs.Replies.{DecodesUtf16};
ghost use Rattle.text.specs.Utf16.{unit_step, text_of, the_text};
ghost use Rattle.text.specs.Stages.Utf16.{unit_step_at, TextFits};

use crate::error::MatError;
use crate::utf8::{put_utf8, utf8_size};

// A scalar value, and how many units it took.
#[derive(Clone, Copy, Debug, PartialEq, Eq)]
pub struct Scalar {
    pub value: u32,
    pub units: usize,
}

// One step of decoding by the next unit and the one after it, if there is one: a surrogate that has no partner gives none.
#[tactic(auto, unfolding(crate::specs::Utf16::unit_step))]
pub fn unit_step(first: u16, second: Option<u16>) -> Option<Scalar>
    ensures { result ≡ unit_step first (unwrap_or second 0) (is_some second) }
{
    if !matches!(first, 0xD800..=0xDFFF) {
        return Some(Scalar {
            value: u32::from(first),
            units: 1,
        });
    }
    let low = second?;
    if !matches!(first, 0xD800..=0xDBFF) || !matches!(low, 0xDC00..=0xDFFF) {
        return None;
    }
    Some(Scalar {
        value: 0x10000 + (u32::from(first) - 0xD800) * 1024 + (u32::from(low) - 0xDC00),
        units: 2,
    })
}

// One step of decoding at a unit that is there. Most need no second unit.
fn step_at(units: &[u16], i: usize) -> Option<Scalar>
    requires { i < length units.now }
    ensures { result ≡ unit_step_at units.now i }
{
    let first = units[i];
    if first < 0xD800 {
        return Some(Scalar {
            value: u32::from(first),
            units: 1,
        });
    }
    unit_step(first, units.get(i + 1).copied())
}

// The length of the text of code units; they have none where a surrogate has no partner. A unit gives at most three bytes, and a slice has
// fewer than 2^63, so the length fits.
// A `while`, here and in put_text, since a step takes one unit or two.
fn text_length(units: &[u16]) -> Option<usize>
    ensures { result ≡ option_map length (text_of units.now) }
{
    let mut bytes: usize = 0;
    let mut i: usize = 0;
    while i < units.len() {
        let scalar = step_at(units, i)?;
        bytes += utf8_size(scalar.value);
        i += scalar.units;
    }
    Some(bytes)
}

// Writes the text of code units to the start of out, which is long enough for it.
fn put_text(units: &[u16], out: &mut [u8])
    requires { TextFits units.now out.old }
    ensures { out.new ≡ put out.old 0 (the_text units.now) }
{
    let mut i: usize = 0;
    let mut o: usize = 0;
    while i < units.len() {
        let Some(scalar) = step_at(units, i) else {
            // This cannot be: TextFits says that the units have a text.
            return;
        };
        o = put_utf8(scalar.value, out, o);
        i += scalar.units;
    }
}

// Writes the UTF-8 text of code units to the start of text.
pub fn decode_utf16(units: &[u16], text: &mut [u8]) -> Result<usize, MatError>
    ensures { DecodesUtf16 units.now text.old result text.new }
{
    let Some(n) = text_length(units) else {
        return Err(MatError::UnpairedSurrogate(0));
    };
    if text.len() < n {
        return Err(MatError::OutputTooShort(n as u64));
    }
    put_text(units, text);
    Ok(n)
}
