// UTF-8 as the Unicode Standard, chapter 3, has it: one decoding step, well-formedness, and the repaired text of ill-formed bytes.
// A text goes with a position in it, and no function takes a slice from there on. To what Step and Utf8Error answer, a slice's start would
// have to be added back. The others answer no position, but their definitions go by a text and a position as well: of a slice, each would
// want a law that it answers as the text does there, and `at < length s` would be `0 < length s`.
ghost use Rattle.std.specs.Prelude.{◌≡◌, ◌+◌, ◌/◌, ◌≤◌, ◌<◌, Some, IfSome, leb, eqb, length, get_or};
ghost use Rattle.std.specs.Range.{range_inclusive_start, range_inclusive_end};
ghost use Rattle.text.specs.Buffer.{same, put, Puts, Places};
ghost use Rattle.text.specs.Replies.{error_place, CountsUnits, terminated_length, lossy_length, WritesLossy};
ghost use Rattle.text.specs.Stages.Utf8.{IsRange, step_has, has_second, whole_length, is_text};
ghost use Rattle.text.specs.Unicode.{Below, is_scalar, utf8, encoded};
ghost use Rattle.text.specs.Utf8.{sequence_length, second_range, has_in, value_at, step_at, parts_from, scalars_of, first_ill_formed, lossy};

use crate::copy::copy_into;
use crate::error::MatError;
use std::ops::RangeInclusive;

// The length of a well-formed sequence by its first byte: its leading ones, none for a sequence of one byte. 0: it starts none.
// 0 and no Option: has_length is public and asks for this number, 0 as well.
fn sequence_length(lead: u8) -> u32
    ensures { result ≡ sequence_length lead }
{
    let ones = u8::leading_zeros(!lead);
    match lead {
        0x80..=0xC1 | 0xF5..=0xFF => 0,
        _ => if ones == 0 { 1 } else { ones },
    }
}

// Whether the sequences that start with a byte have n bytes; 0: it starts none. Of a constant length the compiler makes a test of the
// byte's first bits, and counts no zeros.
pub fn has_length(lead: u8, n: u32) -> bool
    ensures { result ≡ eqb (sequence_length lead) n }
{
    sequence_length(lead) == n
}

// The range of the second byte, which the first byte alone decides.
#[tactic(auto, unfolding(crate::specs::Utf8::second_range, crate::specs::Utf8::find, crate::specs::Utf8::table))]
fn second_range(lead: u8) -> RangeInclusive<u8>
    ensures { IsRange result (second_range lead) }
{
    match lead {
        0xE0 => 0xA0..=0xBF,
        0xED => 0x80..=0x9F,
        0xF0 => 0x90..=0xBF,
        0xF4 => 0x80..=0x8F,
        _ => 0x80..=0xBF,
    }
}

// Whether s has a byte of a range at i: of s and i, as above.
// By the ends and not by contains: tried, and repairing an ill-formed text then took 1.04 of the time.
#[tactic(auto, unfolding(crate::specs::Utf8::has_in))]
fn has(s: &[u8], i: usize, range: RangeInclusive<u8>) -> bool
    ensures { result ≡ has_in s.now i (range_inclusive_start range) (range_inclusive_end range) }
{
    i < s.len() && *range.start() <= s[i] && s[i] <= *range.end()
}

// What decoding at a position finds. The definitions of other crates name its cases.
// Three named cases: an Option of a Result would tell them apart by place alone.
#[derive(Clone, Copy, Debug, PartialEq, Eq)]
pub enum Step {
    // A well-formed sequence: its scalar value, and the position past it.
    Scalar { value: u32, next: usize },
    // A maximal ill-formed part, which ends before next.
    IllFormed { next: usize },
    // Nothing is left.
    End,
}

// One well-formed sequence at a position, or the end of the maximal ill-formed part that is there. ASCII is answered at once.
fn step_at(s: &[u8], at: usize) -> Step
    ensures { result ≡ step_at s.now at }
{
    if s.len() <= at {
        return Step::End;
    }
    let lead = s[at];
    if lead < 0x80 {
        return Step::Scalar {
            value: u32::from(lead),
            next: at + 1,
        };
    }
    sequence_at(s, at)
}

// The scalar value of a sequence of two to four bytes: of s and at, as above.
pub(crate) fn value_at(s: &[u8], at: usize, size: usize) -> u32
    requires size { (2 ≤ size) × (size ≤ 4) }
    requires inside { at + size ≤ length s.now }
    ensures { result ≡ value_at s.now at size }
{
    let b = u32::from(s[at + 1] % 64);
    if size == 2 {
        return u32::from(s[at] % 32) * 64 + b;
    }
    let c = u32::from(s[at + 2] % 64);
    if size == 3 {
        return u32::from(s[at] % 16) * 4096 + b * 64 + c;
    }
    let d = u32::from(s[at + 3] % 64);
    u32::from(s[at] % 8) * 262144 + b * 4096 + c * 64 + d
}

// The same step at a byte that is there: of s and at, as above.
fn sequence_at(s: &[u8], at: usize) -> Step
    requires { at < length s.now }
    ensures { result ≡ step_at s.now at }
{
    let lead = s[at];
    let n = sequence_length(lead);
    if n == 0 {
        return Step::IllFormed { next: at + 1 };
    }
    if n == 1 {
        return Step::Scalar {
            value: u32::from(lead),
            next: at + 1,
        };
    }
    if !has(s, at + 1, second_range(lead)) {
        return Step::IllFormed { next: at + 1 };
    }
    if n == 2 {
        return Step::Scalar {
            value: value_at(s, at, 2),
            next: at + 2,
        };
    }
    if !has(s, at + 2, 0x80..=0xBF) {
        return Step::IllFormed { next: at + 2 };
    }
    if n == 3 {
        return Step::Scalar {
            value: value_at(s, at, 3),
            next: at + 3,
        };
    }
    if !has(s, at + 3, 0x80..=0xBF) {
        return Step::IllFormed { next: at + 3 };
    }
    Step::Scalar {
        value: value_at(s, at, 4),
        next: at + 4,
    }
}

// Whether the byte after the one at a position is in the range that this one gives it.
// Of s and at, as above.
fn has_second(s: &[u8], at: usize) -> bool
    requires { at < length s.now }
    ensures { result ≡ has_second s.now at }
{
    has(s, at + 1, second_range(s[at]))
}

// The length of the well-formed sequence at a byte that is not ASCII. The last byte is looked at first: where it is there, the others are,
// and the end of the text is tested once. Of s and at, as above.
#[tactic(auto, using(crate::proofs::utf8::Size::sizes))]
pub(crate) fn whole_length(s: &[u8], at: usize) -> Option<usize>
    requires { (at < length s.now) × (128 ≤ get_or s.now at 0) }
    ensures { (result ≡ whole_length s.now at) × IfSome result (λ n. n ≤ 4) }
{
    let lead = s[at];
    if has_length(lead, 0) {
        return None;
    }
    if has_length(lead, 2) {
        if !has_second(s, at) {
            return None;
        }
        return Some(2);
    }
    if has_length(lead, 3) {
        if !has(s, at + 2, 0x80..=0xBF) {
            return None;
        }
        if !has_second(s, at) {
            return None;
        }
        return Some(3);
    }
    if !has(s, at + 3, 0x80..=0xBF) {
        return None;
    }
    if !has(s, at + 2, 0x80..=0xBF) {
        return None;
    }
    if !has_second(s, at) {
        return None;
    }
    Some(4)
}

// The code units of a sequence of so many bytes.
fn units_of(size: usize) -> usize
    requires { size ≤ 4 }
    ensures { result ≡ 1 + size / 4 }
{
    if size == 4 { 2 } else { 1 }
}

// The highest byte of a text. A turn only keeps the larger of two bytes, which the compiler does for many of them together.
// Not `is_ascii`: tried, and repairing a mixed text then took 1.15 of the time, though writing short strings of ASCII took 0.71.
pub(crate) fn highest(text: &[u8]) -> u8
    ensures { Below (result + 1) text.now }
{
    let mut high: u8 = 0;
    for byte in text {
        high = high.max(*byte);
    }
    high
}

// Whether a number is a Unicode scalar value.
fn is_scalar(value: u32) -> bool
    ensures { result ≡ is_scalar value }
{
    matches!(value, 0..=0xD7FF | 0xE000..=0x10FFFF)
}

// The number of bytes of a value that is known to be a scalar value: by its size alone.
#[tactic(auto, using(crate::proofs::ByteLaws::sizes_of))]
pub(crate) fn utf8_size(value: u32) -> usize
    ensures { (result ≡ length (utf8 value)) × (result ≤ 4) }
{
    if value < 0x80 {
        return 1;
    }
    if value < 0x800 {
        return 2;
    }
    if value < 0x10000 {
        return 3;
    }
    4
}

// The number of bytes of a scalar value, 0 for a number that is none.
// 0 is a count here, that of what put_scalar writes, and no mark.
pub fn utf8_len(value: u32) -> usize
    ensures { (result ≡ length (encoded utf8 value)) × (result ≤ 4) }
{
    if is_scalar(value) {
        utf8_size(value)
    } else {
        0
    }
}

// Writes the bytes of a scalar value into out from index at where they fit, and returns the index after them. A number that is no
// scalar value, and one whose bytes do not fit, writes nothing.
// It cannot fail and answers an index, as its public promise says: no Option.
pub fn put_scalar(value: u32, out: &mut [u8], at: usize) -> usize
    ensures { Places out.old at (encoded utf8 value) result out.new }
{
    let n = utf8_len(value);
    if n == 0 {
        return at;
    }
    if out.len() < n {
        return at;
    }
    if out.len() - n < at {
        return at;
    }
    put_utf8(value, out, at)
}

// The same where the bytes fit.
// Into out from index at on, and not to the start of a part `&mut out[at..]` that callers lend, as `char::encode_utf8` has it: tried, and
// decoding mixed code units then took 1.06 to 1.2 of the time, since the size is added after each of the four ways.
pub(crate) fn put_utf8(value: u32, out: &mut [u8], at: usize) -> usize
    requires { (value < 1114112) × (at + length (utf8 value) ≤ length out.old) }
    ensures value { result ≡ at + length (utf8 value) }
    ensures out_after { out.new ≡ put out.old at (utf8 value) }
{
    if value < 0x80 {
        out[at] = value as u8;
        return at + 1;
    }
    if value < 0x800 {
        out[at] = (0xC0 + value / 64) as u8;
        out[at + 1] = (0x80 + value % 64) as u8;
        return at + 2;
    }
    if value < 0x10000 {
        out[at] = (0xE0 + value / 4096) as u8;
        out[at + 1] = (0x80 + value / 64 % 64) as u8;
        out[at + 2] = (0x80 + value % 64) as u8;
        return at + 3;
    }
    out[at] = (0xF0 + value / 262144) as u8;
    out[at + 1] = (0x80 + value / 4096 % 64) as u8;
    out[at + 2] = (0x80 + value / 64 % 64) as u8;
    out[at + 3] = (0x80 + value % 64) as u8;
    at + 4
}

// That a text is ill-formed: the position of its first ill-formed part, up to which it is well-formed.
#[derive(Clone, Copy, Debug, PartialEq, Eq)]
pub struct Utf8Error {
    pub valid_up_to: usize,
}

// The number of UTF-16 code units of a well-formed text. A sequence has one, and one of four bytes two: no scalar value is computed. A text
// of ASCII alone is not decoded.
// A `while`, here and below, since a step is as long as its sequence. whole_length is the step that the walks share: what they add and
// where they stop differs, and an iterator would save the index alone.
pub fn count_units(text: &[u8]) -> Result<usize, Utf8Error>
    ensures { CountsUnits text.now result }
{
    if highest(text) < 0x80 {
        return Ok(text.len());
    }
    let mut n: usize = 0;
    let mut i: usize = 0;
    while i < text.len() {
        if text[i] < 0x80 {
            n += 1;
            i += 1;
            continue;
        }
        let Some(size) = whole_length(text, i) else {
            return Err(Utf8Error { valid_up_to: i });
        };
        n += units_of(size);
        i += size;
    }
    Ok(n)
}

// Whether a text is well-formed.
pub fn validate(text: &[u8]) -> Result<(), Utf8Error>
    ensures { error_place result ≡ first_ill_formed (parts_from text.now 0) }
{
    count_units(text)?;
    Ok(())
}

// Whether all from a position on is well-formed: of s and at, as above. `validate` of the slice from there was tried: what stayed open is
// that its parts are those of the text from there on, for which there is no law.
pub(crate) fn is_text_from(text: &[u8], start: usize) -> bool
    ensures { result ≡ is_text (scalars_of (parts_from text.now start)) }
{
    let mut i = start;
    while i < text.len() {
        if text[i] < 0x80 {
            i += 1;
            continue;
        }
        let Some(size) = whole_length(text, i) else {
            return false;
        };
        i += size;
    }
    true
}

// The length of a text that ends before its first zero byte, or with all its bytes where there is none: its end is found as it is looked
// at. An ill-formed one has none.
pub fn terminated_length(bytes: &[u8]) -> Option<usize>
    ensures { result ≡ terminated_length bytes.now }
{
    let mut i: usize = 0;
    while i < bytes.len() {
        if bytes[i] == 0 {
            return Some(i);
        }
        if bytes[i] < 0x80 {
            i += 1;
            continue;
        }
        i += whole_length(bytes, i)?;
    }
    Some(i)
}

// The bytes of a repaired text and the number of ill-formed parts that were replaced, a genuine U+FFFD not among them.
#[derive(Clone, Copy, Debug, Default, PartialEq, Eq)]
pub struct LossySize {
    pub bytes: usize,
    pub replaced: usize,
}

// The size of the repaired text, none where its bytes do not fit 64 bits.
pub fn lossy_length(s: &[u8]) -> Option<LossySize>
    ensures { result ≡ lossy_length s.now }
{
    match count_units(s) {
        Ok(_) => Some(LossySize {
            bytes: s.len(),
            replaced: 0,
        }),
        Err(e) => repaired_length(s, e.valid_up_to),
    }
}

// The same for a text whose first ill-formed part stands at a position: that is what Utf8Error holds.
fn repaired_length(s: &[u8], at: usize) -> Option<LossySize>
    requires { first_ill_formed (parts_from s.now 0) ≡ Some at }
    ensures { result ≡ lossy_length s.now }
{
    // how many of the bytes before i are in ill-formed parts: the others are kept
    let mut broken: usize = 0;
    let mut replaced: usize = 0;
    let mut i = at;
    while i < s.len() {
        if s[i] < 0x80 {
            i += 1;
            continue;
        }
        match step_at(s, i) {
            Step::Scalar { value: _, next } => {
                i = next;
            }
            Step::IllFormed { next } => {
                broken += next - i;
                replaced += 1;
                i = next;
            }
            Step::End => {
                break;
            }
        }
    }
    let kept = i - broken;
    let bytes = replaced.checked_mul(3)?.checked_add(kept)?;
    Some(LossySize { bytes, replaced })
}

// Whether the repaired text of s has at most so many bytes. A byte gives three at most, so that with plenty of room nothing is measured.
fn lossy_fits(s: &[u8], room: usize) -> bool
    ensures { result ≡ leb (length (lossy s.now)) room }
{
    if s.len() <= room / 3 {
        return true;
    }
    lossy_length(s).is_some_and(|size| size.bytes <= room)
}

// Writes the repaired text of s into out from index at on where all of it fits, and returns the index after it. One that does not fit
// writes nothing.
// It cannot fail and answers an index, as its public promise says: no Option.
pub fn put_lossy(s: &[u8], out: &mut [u8], at: usize) -> usize
    ensures { Places out.old at (lossy s.now) result out.new }
{
    if out.len() < at {
        return at;
    }
    if !lossy_fits(s, out.len() - at) {
        return at;
    }
    at + put_repaired(s, &mut out[at..])
}

// The same to the start of out, where it fits, and returns its length.
fn put_repaired(s: &[u8], out: &mut [u8]) -> usize
    requires { length (lossy s.now) ≤ length out.old }
    ensures { Puts out.old 0 (lossy s.now) result out.new }
{
    let mut i: usize = 0;
    let mut o: usize = 0;
    loop {
        match step_at(s, i) {
            Step::Scalar { value, next } => {
                o = put_utf8(value, out, o);
                i = next;
            }
            Step::IllFormed { next } => {
                o = put_utf8(0xFFFD, out, o);
                i = next;
            }
            Step::End => {
                return o;
            }
        }
    }
}

// Writes the repaired text of s, in which each maximal ill-formed part is EF BF BD, to the start of out, or nothing where out is too
// short for all of it. A text in which nothing is replaced is its own repaired text.
// The place of 34 is a number, as C reads it: the largest for a length that does not fit 64 bits.
pub fn write_lossy(s: &[u8], out: &mut [u8]) -> Result<LossySize, MatError>
    ensures { WritesLossy s.now out.old result out.new }
{
    let Some(size) = lossy_length(s) else {
        return Err(MatError::OutputTooShort(u64::MAX));
    };
    if out.len() < size.bytes {
        return Err(MatError::OutputTooShort(size.bytes as u64));
    }
    if size.replaced == 0 {
        copy_into(s, out, 0);
        return Ok(size);
    }
    put_repaired(s, out);
    Ok(size)
}

// Whether s has the scalar value at a position: of s and at, as above.
fn has_scalar(s: &[u8], at: usize, value: u32) -> bool
    ensures { result ≡ step_has (step_at s.now at) value }
{
    match step_at(s, at) {
        Step::Scalar { value: v, next: _ } => v == value,
        _ => false,
    }
}

// Whether the repaired text of s is exactly text.
// A walk over both: there is no heap for the repaired text to stand in, so that == cannot compare it.
pub fn is_lossy(s: &[u8], text: &[u8]) -> bool
    ensures { result ≡ same (lossy s.now) text.now }
{
    let mut i: usize = 0;
    let mut o: usize = 0;
    loop {
        match step_at(s, i) {
            Step::Scalar { value, next } => {
                if !has_scalar(text, o, value) {
                    return false;
                }
                o += utf8_len(value);
                i = next;
            }
            Step::IllFormed { next } => {
                if !has_scalar(text, o, 0xFFFD) {
                    return false;
                }
                o += 3;
                i = next;
            }
            Step::End => {
                return o == text.len();
            }
        }
    }
}
