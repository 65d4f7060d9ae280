// Code units packed into words, four to a word.
ghost use Rattle.std.specs.Prelude.{◌≡◌, true, ◌+◌, ◌/◌, ◌%◌, ◌≤◌, ◌<◌, length, get_or};
ghost use Rattle.text.specs.Buffer.{put};
ghost use Rattle.text.specs.Unicode.{is_scalar, utf16};
ghost use Rattle.text.specs.Utf8.{step_at};
ghost use Rattle.text.specs.declared.utf8.Step.TheVariants.{Scalar};
ghost use Rattle.writer.specs.Array.{string_units, string_words};
ghost use Rattle.writer.specs.Stages.Packing.{Pushed, PushedAscii, Packable, PackableFrom, SequenceAt, Finished};
ghost use Rattle.writer.specs.Spans.{strings_in};
ghost use Rattle.writer.specs.Stages.Payload.{StringsFit};

use crate::checks::Strings;
use text::utf8::has_length;

// Units that are pushed into words one after another.
#[derive(Drop)]
pub(crate) struct Packer<'a> {
    words: &'a mut [u64],
    // The last four units, the last one highest. They are stored when the fourth of a word comes.
    word: u64,
    // How many were pushed.
    count: usize,
}

// That the words stay the same buffer (kept) is of the reference before and after, so that no field carries it; Pushed is of what is in it.
impl Packer<'_> {
    // Pushes units that fall into one word.
    fn push<const N: usize>(&mut self, units: [u16; N])
        requires one_word { (0 < N) × (self.old.count % 4 + N ≤ 4) }
        requires room { (self.old.count + N) / 4 ≤ length self.old.words.now }
        ensures kept { self.new.words.ghost_name ≡ self.old.words.ghost_name }
        ensures pushed { Pushed self.old units.entry self.new }
    {
        for unit in &units {
            self.word = (self.word >> 16) + (u64::from(*unit) << 48);
        }
        let at = self.count / 4;
        self.count += N;
        if self.count % 4 == 0 {
            self.words[at] = self.word;
        }
    }

    // Pushes the units of a scalar value.
    fn push_scalar(&mut self, value: u32)
        requires scalar { is_scalar value ≡ true }
        requires room { (self.old.count + length (utf16 value)) / 4 ≤ length self.old.words.now }
        ensures kept { self.new.words.ghost_name ≡ self.old.words.ghost_name }
        ensures pushed { Pushed self.old (utf16 value) self.new }
    {
        if value < 0x10000 {
            self.push([value as u16]);
            return;
        }
        let v = value - 0x10000;
        let high = (0xD800 + v / 0x400) as u16;
        let low = (0xDC00 + v % 0x400) as u16;
        if self.count % 4 == 3 {
            self.push([high]);
            self.push([low]);
            return;
        }
        self.push([high, low]);
    }

    // Pushes ASCII bytes from index i on, each of which is its own unit: four where they fill a word, and one otherwise. Returns how many.
    fn push_ascii(&mut self, text: &[u8], i: usize) -> usize
        requires i_in_bounds { (i < length text.now) × (get_or text.now i 0 < 128) }
        requires packable_from { PackableFrom text.now i self.old }
        ensures kept { self.new.words.ghost_name ≡ self.old.words.ghost_name }
        ensures pushed { PushedAscii text.now i result self.old self.new }
    {
        let a = text[i];
        if self.count % 4 != 0 || text.len() - i < 4 {
            self.push([u16::from(a)]);
            return 1;
        }
        let b = text[i + 1];
        let c = text[i + 2];
        let d = text[i + 3];
        if 0x7F < b || 0x7F < c || 0x7F < d {
            self.push([u16::from(a)]);
            return 1;
        }
        self.push([u16::from(a), u16::from(b), u16::from(c), u16::from(d)]);
        4
    }

    // Pushes the units of a text that was measured, so that each sequence in it is well-formed.
    // A `while`, since a step is as long as its sequence.
    fn push_text(&mut self, text: &[u8])
        requires { Packable text.now self.old }
        ensures kept { self.new.words.ghost_name ≡ self.old.words.ghost_name }
        ensures pushed { Pushed self.old (string_units text.now) self.new }
    {
        let mut i: usize = 0;
        while i < text.len() {
            if text[i] < 0x80 {
                i += self.push_ascii(text, i);
                continue;
            }
            let sequence = sequence_at(text, i);
            self.push_scalar(sequence.value);
            i = sequence.next;
        }
    }

    // Stores the units of the last word, with zeros after them.
    fn finish(&mut self)
        requires { (self.old.count + 3) / 4 ≤ length self.old.words.now }
        ensures kept { self.new.words.ghost_name ≡ self.old.words.ghost_name }
        ensures finished { Finished self.old self.new }
    {
        let last = self.count % 4;
        if last != 0 {
            self.words[self.count / 4] = self.word >> (64 - 16 * last);
        }
    }
}

// A scalar value of a text, and the index after its bytes.
// text's Step has the same beside two cases that a measured text has not, and for which a caller would test at each sequence. An iterator
// would test each sequence again, which measuring did.
#[derive(Clone, Copy, Debug, PartialEq, Eq)]
pub(crate) struct Sequence {
    value: u32,
    next: usize,
}

// The sequence of two bytes or more at index i of a well-formed text. Its first byte tells its length, and no later one is tested.
// text's `value_at` has these sums, but asks that the sequence is whole, which no call from another crate may be asked.
#[tactic(auto, using(crate::proofs::packing::Sequences::sequences))]
fn sequence_at(text: &[u8], i: usize) -> Sequence
    requires { SequenceAt text.now i }
    ensures { step_at text.now i ≡ Scalar result.value result.next }
{
    let lead = text[i];
    let b = u32::from(text[i + 1] % 64);
    if has_length(lead, 4) {
        let c = u32::from(text[i + 2] % 64);
        let d = u32::from(text[i + 3] % 64);
        return Sequence {
            value: u32::from(lead % 8) * 262144 + b * 4096 + c * 64 + d,
            next: i + 4,
        };
    }
    if has_length(lead, 2) {
        return Sequence {
            value: u32::from(lead % 32) * 64 + b,
            next: i + 2,
        };
    }
    let c = u32::from(text[i + 2] % 64);
    Sequence {
        value: u32::from(lead % 16) * 4096 + b * 64 + c,
        next: i + 3,
    }
}

// Writes the lengths of the strings to the start of words, and after them their units.
pub(crate) fn put_strings(strings: Strings, words: &mut [u64])
    requires { StringsFit strings.text.now strings.spans.now (length words.old) }
    ensures { let s = strings.entry in
        words.new ≡ put words.old 0 (string_words (strings_in s.text.now s.spans.now)) }
{
    let (counts, units) = words.split_at_mut(strings.len());
    let mut packer = Packer {
        words: units,
        word: 0,
        count: 0,
    };
    for (i, count) in counts.iter_mut().enumerate() {
        let before = packer.count;
        packer.push_text(strings.get(i));
        *count = (packer.count - before) as u64;
    }
    packer.finish();
}
