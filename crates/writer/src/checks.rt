// Checks 30 and 31: the strings that spans cut from a text, and the shape of an array.
ghost use Rattle.std.specs.Prelude.{◌≡◌, ◌+◌, ◌*◌, ◌/◌, ◌<◌, length};
ghost use Rattle.text.specs.Replies.{outcome};
ghost use Rattle.writer.specs.Array.{is_shape};
ghost use Rattle.writer.specs.Stages.Payload.{HasString, MeasuresString, measured_strings};
ghost use Rattle.writer.specs.Spans.{offset_at, length_at, string_at};

use text::convert::{checked_product, to_usize};
use text::error::MatError;
use text::utf8::count_units;

// The end of a string's span, and its code units. The end is an index in the text: check 30 compares the next span's offset with it.
#[derive(Clone, Copy, Debug, PartialEq, Eq)]
pub(crate) struct StringSize {
    end: usize,
    units: usize,
}

// Strings as parts of a text, by spans: pairs of offset and length.
#[derive(Clone, Copy, Debug, PartialEq, Eq)]
pub(crate) struct Strings<'a> {
    pub(crate) text: &'a [u8],
    pub(crate) spans: &'a [u64],
}

impl<'a> Strings<'a> {
    pub(crate) fn len(self) -> usize
        ensures { result ≡ length self.entry.spans.now / 2 }
    {
        self.spans.len() / 2
    }

    // The offset and the length of string i.
    #[tactic(auto, using(crate::proofs::SpanLaws::pair_offset, crate::proofs::SpanLaws::pair_length))]
    fn span(self, i: usize) -> (usize, usize)
        requires { 2 * i + 1 < length self.spans.now }
        ensures { let s = self.entry in
            (result.0 ≡ offset_at s.spans.now i) × (result.1 ≡ length_at s.spans.now i) }
    {
        let span = self.spans.as_chunks::<2>().0[i];
        (to_usize(span[0]), to_usize(span[1]))
    }

    // String i.
    pub(crate) fn get(self, i: usize) -> &'a [u8]
        requires { HasString self.text.now self.spans.now i }
        ensures { result.now ≡ string_at self.entry.text.now self.entry.spans.now i }
    {
        let (start, len) = self.span(i);
        &self.text[start..start + len]
    }

    // Check 30 for string i, where the span before it ends at end: its size where it holds.
    fn measure_one(self, i: usize, end: usize) -> Option<StringSize>
        requires { 2 * i + 1 < length self.spans.now }
        ensures { MeasuresString self.entry.text.now self.entry.spans.now i end result }
    {
        let (offset, len) = self.span(i);
        let last = offset.checked_add(len)?;
        if offset < end {
            return None;
        }
        let units = count_units(self.text.get(offset..last)?).ok()?;
        Some(StringSize { end: last, units })
    }

    // Check 30 for all strings, in one walk over their bytes: their code units.
    pub(crate) fn measure(self) -> Result<usize, MatError>
        ensures { let s = self.entry in
            outcome result ≡ measured_strings s.text.now s.spans.now (length s.spans.now / 2) }
    {
        let mut units: usize = 0;
        let mut end: usize = 0;
        for i in 0..self.len() {
            let Some(size) = self.measure_one(i, end) else {
                return Err(MatError::InvalidText(i as u64));
            };
            units += size.units;
            end = size.end;
        }
        Ok(units)
    }
}

// Check 31: whether the product of the dimensions stays below 2^64 at each step and is n.
pub(crate) fn is_shape(dims: &[u64], n: usize) -> bool
    ensures { result ≡ is_shape dims.now n }
{
    checked_product(dims) == Ok(n as u64)
}
