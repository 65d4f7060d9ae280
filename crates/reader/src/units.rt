// The text of code units that lie in words, four to a word.
ghost use Rattle.std.specs.Prelude.{◌≡◌, ◌&&◌, ◌+◌, ◌-◌, ◌*◌, ◌/◌, ◌≤◌, ◌<◌, length};
ghost use Rattle.text.specs.Buffer.{Puts};
ghost use Rattle.text.specs.Unicode.{is_high_surrogate, is_low_surrogate, is_surrogate, utf8};
ghost use Rattle.text.specs.Utf16.{pair_value, the_text};
ghost use Rattle.reader.specs.Units.{unit_at, units_in};
ghost use Rattle.reader.specs.Stages.Units.{is_packed, UnitsFit, TwoFit, ThreeFit, PairFits};

// Unit k of the words from index first on. Words and first by themselves, here and below: see StringPayload.
#[tactic(auto, unfolding(crate::specs::Units::unit_at))]
pub(crate) fn unit_at(words: &[u64], first: usize, k: usize) -> u16
    requires { first + k / 4 < length words.now }
    ensures { result ≡ unit_at words.now first k }
{
    let word = words[first + k / 4];
    let low = 16 * (k % 4);
    ((word >> low) % 65536) as u16
}

// Whether a unit is a surrogate.
// Measuring asks for this and for is_pair alone: text's unit_step computes the value too.
pub(crate) fn is_surrogate(unit: u16) -> bool
    ensures { result ≡ is_surrogate unit }
{
    (0xD800..=0xDFFF).contains(&unit)
}

// Whether a unit and the one after it are a surrogate pair.
pub(crate) fn is_pair(unit: u16, next: u16) -> bool
    ensures { result ≡ (is_high_surrogate unit && is_low_surrogate next) }
{
    (0xD800..=0xDBFF).contains(&unit) && (0xDC00..=0xDFFF).contains(&next)
}

// Writes the two bytes of a unit from 0x80 on and below 0x800 at the start of out, and returns how many they are.
// It and the two below have the sums of text's put_utf8, which asks for a scalar value that fits, and so is no public call. The public one,
// put_scalar, would test size and room once more, which put_text and measuring did.
fn put_two(unit: u16, out: &mut [u8]) -> usize
    requires { TwoFit unit (length out.old) }
    ensures { Puts out.old 0 (utf8 unit) result out.new }
{
    out[0] = (0xC0 + unit / 64) as u8;
    out[1] = (0x80 + unit % 64) as u8;
    2
}

// Writes the three bytes of a unit from 0x800 on.
fn put_three(unit: u16, out: &mut [u8]) -> usize
    requires { ThreeFit unit (length out.old) }
    ensures { Puts out.old 0 (utf8 unit) result out.new }
{
    out[0] = (0xE0 + unit / 4096) as u8;
    out[1] = (0x80 + unit / 64 % 64) as u8;
    out[2] = (0x80 + unit % 64) as u8;
    3
}

// Writes the four bytes of a surrogate pair.
fn put_pair(high: u16, low: u16, out: &mut [u8]) -> usize
    requires { PairFits high low (length out.old) }
    ensures { Puts out.old 0 (utf8 (pair_value high low)) result out.new }
{
    let value = 0x10000 + (u32::from(high) - 0xD800) * 1024 + (u32::from(low) - 0xDC00);
    out[0] = (0xF0 + value / 262144) as u8;
    out[1] = (0x80 + value / 4096 % 64) as u8;
    out[2] = (0x80 + value / 64 % 64) as u8;
    out[3] = (0x80 + value % 64) as u8;
    4
}

// Writes the text of the n units from unit k on at the start of out, and returns how many bytes it has. They were measured, so that they
// fit, and a surrogate is the first of a pair.
// text's decode_utf16 takes a slice of units, which there is no memory to unpack here. A `while`, since a step takes one unit or two.
pub(crate) fn put_text(words: &[u64], first: usize, k: usize, n: usize, out: &mut [u8]) -> usize
    requires { UnitsFit words.now first k n (length out.old) }
    ensures { Puts out.old 0 (the_text (units_in words.now first k n)) result out.new }
{
    let end = k + n;
    let mut o: usize = 0;
    let mut i = k;
    while i < end {
        let unit = unit_at(words, first, i);
        i += 1;
        if unit < 0x80 {
            out[o] = unit as u8;
            o += 1;
            continue;
        }
        if unit < 0x800 {
            o += put_two(unit, &mut out[o..]);
            continue;
        }
        if !is_surrogate(unit) {
            o += put_three(unit, &mut out[o..]);
            continue;
        }
        o += put_pair(unit, unit_at(words, first, i), &mut out[o..]);
        i += 1;
    }
    o
}

// Whether the n units from word first on fill the words to their end, with zeros after the last one.
#[tactic(auto, unfolding(crate::specs::Stages::Units::is_packed))]
pub(crate) fn is_packed(words: &[u64], first: usize, n: usize) -> bool
    requires { (first ≤ length words.now) × (n ≤ 4 * (length words.now - first)) }
    ensures { result ≡ is_packed words.now first n }
{
    if words.len() != first + n.div_ceil(4) {
        return false;
    }
    if n % 4 == 0 {
        return true;
    }
    words[first + n / 4] >> (16 * (n % 4)) == 0
}
