// Saveobj payloads of string arrays, as `decode_string_saveobj` of `src/mat/de/mcos_reader.rs` of the Rust reads them.
ghost use Rattle.std.specs.Prelude.{◌≡◌, ◌+◌, ◌*◌, ◌^◌, ◌≤◌, ◌<◌, length, IfOk};
ghost use Rattle.text.specs.Replies.{outcome};
ghost use Rattle.text.specs.Result.{ok, map_result};
ghost use Rattle.reader.specs.Saveobj.{unit_count, stored_strings, check_header, check_sum, check_pairing, decode_payload, is_canonical_payload, check_outputs};
ghost use Rattle.reader.specs.Stages.Saveobj.{checked_units, LengthsInside, UnitsChecked, StringsFit, FitsAt, WritesAt};
ghost use Rattle.reader.specs.Replies.{size_of, DecodesStrings};

use crate::units::{is_packed, is_pair, is_surrogate, put_text, unit_at};
use text::convert::{checked_product, to_usize};
use text::error::MatError;
use writer::string_object::{MATLAB_STRING_SAVEOBJ_VERSION, MAX_PAYLOAD_WORDS};

// The length that marks a missing string.
const MISSING: u64 = 0xFFFF_FFFF_FFFF_FFFF;

// The bytes of text and the number of strings that decoding gives.
#[derive(Clone, Copy, Debug, PartialEq, Eq)]
pub struct DecodedSize {
    pub bytes: usize,
    pub strings: usize,
}

// Where the next string goes: its first byte, and its index among the spans.
// Text and spans are lent beside it, and are no fields of a writer: WritesAt is of both, as they were and as they are, and of the position
// before and after, and each put of a writer would say the same of its fields. FitsAt, which three ask, is of strings and of the room at one
// call: a field would carry it for that call alone.
#[derive(Clone, Copy, Debug, Default, PartialEq, Eq)]
pub(crate) struct Position {
    pub(crate) byte: usize,
    pub(crate) string: usize,
}

// A payload that passed checks 22 to 26: the index of its first length, and the number of its strings. Their units begin after the lengths.
// No slices of lengths and of units: the definitions of document 01's payloads go by the index in the whole of it, and so do those of
// units.rt, where a slice of units would have its start added back in each promise.
#[derive(Clone, Copy)]
pub(crate) struct StringPayload<'a> {
    words: &'a [u64],
    base: usize,
    strings: usize,
    ghost inside: { LengthsInside words.now base strings },
}

impl<'a> StringPayload<'a> {
    ghost use Rattle.reader.specs.declared.saveobj.StringPayload.{StringPayload};

    // Checks 22 to 26.
    #[tactic(auto, unfolding(crate::specs::Saveobj::check_header))]
    fn parse(words: &'a [u64]) -> Result<StringPayload<'a>, MatError>
        ensures header { let reply = outcome result in
            map_result (λ (p : StringPayload). record { base = p.base; strings = p.strings }) reply ≡ check_header words.now }
        ensures lent { IfOk result (λ (p : StringPayload). p.words.now ≡ words.now) }
    {
        let len = words.len();
        if len < 2 || MAX_PAYLOAD_WORDS < len {
            return Err(MatError::PayloadSize(len as u64));
        }
        let version = words[0];
        if version != MATLAB_STRING_SAVEOBJ_VERSION {
            return Err(MatError::PayloadVersion(version));
        }
        let dims = to_usize(words[1]);
        if len - 2 < dims {
            return Err(MatError::PayloadDimensionsTruncated(dims as u64));
        }
        let base = 2 + dims;
        let product = checked_product(&words[2..base]).map_err(|i| MatError::PayloadProductOverflow(
            i as u64,
        ))?;
        let strings = to_usize(product);
        if len - base < strings {
            return Err(MatError::PayloadLengthsTruncated(product));
        }
        Ok(StringPayload {
            words,
            base,
            strings,
        })
    }

    // The code units of string i: none for a missing one.
    #[tactic(auto, unfolding(crate::specs::Saveobj::unit_count))]
    fn unit_count(self, i: usize) -> usize
        requires { i < self.strings }
        ensures { result ≡ unit_count self.entry.words.now self.entry.base i }
    {
        let count = self.words[self.base + i];
        if count == MISSING {
            return 0;
        }
        to_usize(count)
    }

    // Check 27: the code units of all strings.
    fn sum_lengths(self) -> Result<usize, MatError>
        ensures { outcome result ≡ check_sum self.entry.words.now self.entry.base self.entry.strings }
    {
        let mut sum: usize = 0;
        for i in 0..self.strings {
            let Some(more) = sum.checked_add(self.unit_count(i)) else {
                return Err(MatError::PayloadLengthSumOverflow(i as u64));
            };
            sum = more;
        }
        Ok(sum)
    }

    // Checks 27 and 28, and the code units of all strings.
    #[tactic(auto, unfolding(crate::specs::Stages::Saveobj::checked_units, crate::specs::Saveobj::check_unit_count))]
    fn count_units(self) -> Result<usize, MatError>
        ensures { outcome result ≡ checked_units self.entry.words.now self.entry.base self.entry.strings }
    {
        let units = self.sum_lengths()?;
        if 4 * (self.words.len() - (self.base + self.strings)) < units {
            return Err(MatError::PayloadUnitsTruncated(units as u64));
        }
        Ok(units)
    }

    // Check 29 for strings that passed 28, and what they need: the bytes of their text and their number, or the first string with a surrogate
    // that has no partner. A missing string has no units, and counts in the index. No other walk over a payload looks at pairing.
    // The inner loop is a `while`, since a step takes one unit or two.
    fn measure(self) -> Result<DecodedSize, MatError>
        requires { UnitsChecked self.words.now self.base self.strings }
        ensures { let pairing = check_pairing self.entry.words.now self.entry.base self.entry.strings in
            outcome result ≡ map_result size_of pairing }
    {
        let first = self.base + self.strings;
        let mut bytes: usize = 0;
        let mut k: usize = 0;
        for i in 0..self.strings {
            let end = k + self.unit_count(i);
            while k < end {
                let unit = unit_at(self.words, first, k);
                k += 1;
                if unit < 0x80 {
                    bytes += 1;
                    continue;
                }
                if unit < 0x800 {
                    bytes += 2;
                    continue;
                }
                if !is_surrogate(unit) {
                    bytes += 3;
                    continue;
                }
                if k == end {
                    return Err(MatError::UnpairedSurrogate(i as u64));
                }
                if !is_pair(unit, unit_at(self.words, first, k)) {
                    return Err(MatError::UnpairedSurrogate(i as u64));
                }
                bytes += 4;
                k += 1;
            }
        }
        Ok(DecodedSize {
            bytes,
            strings: self.strings,
        })
    }

    // Writes the strings and their spans, and returns the position after them. The pairs of spans are written by index: what chunks_exact_mut
    // lends is known by its length alone afterwards.
    fn put(self, text: &mut [u8], spans: &mut [u64], at: Position) -> Position
        requires { let text_room = length text.old in
            StringsFit self.words.now self.base self.strings at.byte text_room at.string (length spans.old) }
        ensures { let strings = ok (stored_strings self.entry.words.now self.entry.base self.entry.strings 0 self.entry.strings) in
            WritesAt strings at text.old spans.old result text.new spans.new }
    {
        let first = self.base + self.strings;
        let mut next = at;
        let mut unit: usize = 0;
        for i in 0..self.strings {
            let count = self.unit_count(i);
            let bytes = put_text(self.words, first, unit, count, &mut text[next.byte..]);
            let end = next.byte + bytes;
            spans[2 * next.string] = next.byte as u64;
            spans[2 * next.string + 1] = bytes as u64;
            next = Position {
                byte: end,
                string: next.string + 1,
            };
            unit += count;
        }
        next
    }
}

// Checks 22 to 29, and what a payload's strings need.
pub(crate) fn measure_saveobj(payload: &[u64]) -> Result<DecodedSize, MatError>
    ensures { outcome result ≡ map_result size_of (decode_payload payload.now) }
{
    let strings = StringPayload::parse(payload)?;
    strings.count_units()?;
    strings.measure()
}

// Writes the strings of a payload that was measured, and returns the position after them.
pub(crate) fn put_payload(
    payload: &[u64],
    text: &mut [u8],
    spans: &mut [u64],
    at: Position,
) -> Position
    requires { FitsAt (decode_payload payload.now) (length text.old) (length spans.old) at }
    ensures { WritesAt (decode_payload payload.now) at text.old spans.old
        result text.new spans.new }
{
    match StringPayload::parse(payload) {
        Ok(strings) => strings.put(text, spans, at),
        // It was measured, as FitsAt says.
        Err(_) => at,
    }
}

// 34 for strings that were measured: their text, then their spans.
pub(crate) fn check_outputs(size: DecodedSize, text: usize, spans: usize) -> Result<(), MatError>
    requires { 2 * size.strings < 2 ^ 64 }
    ensures { outcome result ≡ check_outputs size.bytes size.strings text spans }
{
    if text < size.bytes {
        return Err(MatError::OutputTooShort(size.bytes as u64));
    }
    if spans < 2 * size.strings {
        return Err(MatError::OutputTooShort((2 * size.strings) as u64));
    }
    Ok(())
}

// Writes the strings of a saveobj payload to the start of text, in UTF-8 and end to end, and their spans to the start of spans.
// Text and spans are two outputs, and the spans flat pairs, as C lends them: so it is in both other ways of decoding.
pub fn decode_string_saveobj(
    payload: &[u64],
    text: &mut [u8],
    spans: &mut [u64],
) -> Result<DecodedSize, MatError>
    ensures { let m = decode_payload payload.now in
        DecodesStrings m text.old spans.old result text.new spans.new }
{
    let size = measure_saveobj(payload)?;
    check_outputs(size, text.len(), spans.len())?;
    put_payload(payload, text, spans, Position::default());
    Ok(size)
}

// Whether a payload is exactly what writing gives for its own dimensions and strings.
pub fn is_canonical_payload(payload: &[u64]) -> bool
    ensures { result ≡ is_canonical_payload payload.now }
{
    let Ok(strings) = StringPayload::parse(payload) else {
        return false;
    };
    let Ok(units) = strings.count_units() else {
        return false;
    };
    let first = strings.base + strings.strings;
    if !is_packed(payload, first, units) {
        return false;
    }
    if payload[strings.base..first].contains(&MISSING) {
        return false;
    }
    strings.measure().is_ok()
}
