// The name heap: pieces of bytes, cut at zero bytes.
ghost use Rattle.std.specs.Prelude.{◌≡◌, ◌+◌, ◌-◌, ◌≤◌, length, get_or, drop};
ghost use Rattle.std.proofs.Math.Seq.{slice};
ghost use Rattle.text.specs.Replies.{outcome};
ghost use Rattle.text.specs.Result.{ok};
ghost use Rattle.reader.specs.Names.{pieces, heap_of, shown_bytes};
ghost use Rattle.reader.specs.Stages.Names.{zeros, Skips, HasPiece, Running, FirstPiece, ComparesPiece, IsSize};
ghost use Rattle.reader.specs.Queries.{check_name, own_bytes, name_text};
ghost use Rattle.reader.specs.Replies.{WritesText};

use crate::file_wrapper::{FileWrapper, HEADER, Metadata};
use text::error::MatError;
use text::utf8::{LossySize, lossy_length, write_lossy};

// Zero bytes are counted by blocks: a count of one byte over a known number of bytes is compiled to vector operations, 16 bytes in each.
const BLOCK: usize = 64;

// How many bytes of a block are zero.
fn count_zeros(block: &[u8; BLOCK]) -> usize
    ensures { result ≡ zeros block.now }
{
    let mut n: u8 = 0;
    for byte in block {
        n += u8::from(*byte == 0);
    }
    usize::from(n)
}

// Zero bytes that were passed, and the bytes after them.
#[derive(Clone, Copy)]
struct Skipped<'a> {
    zeros: usize,
    rest: &'a [u8],
}

// Passes whole blocks, as long as they hold no more than most zero bytes.
// A `while`: what is left where it stops is answered, which a loop over chunks would count beside them.
fn skip_blocks(bytes: &[u8], most: usize) -> Skipped
    ensures { Skips bytes.now most result.zeros result.rest.now }
{
    let mut zeros: usize = 0;
    let mut rest = bytes;
    while let Some((block, after)) = rest.split_first_chunk::<BLOCK>() {
        let more = zeros + count_zeros(block);
        if most < more {
            return Skipped { zeros, rest };
        }
        zeros = more;
        rest = after;
    }
    Skipped { zeros, rest }
}

// The number of pieces: the zero bytes, and one more.
pub(crate) fn count_pieces(bytes: &[u8]) -> usize
    ensures { result ≡ length (pieces bytes.now) }
{
    // Not more than all bytes are zero, so every whole block is passed.
    let blocks = skip_blocks(bytes, bytes.len());
    // A loop: with `filter` and `count` over these last bytes a query by name took 1.08 of the time.
    let mut last: usize = 0;
    for byte in blocks.rest {
        last += usize::from(*byte == 0);
    }
    blocks.zeros + last + 1
}

// The heap from piece index, from 1, on.
fn from_piece(heap: &[u8], index: usize) -> &[u8]
    requires { HasPiece heap.now index }
    ensures { pieces result.now ≡ drop (index - 1) (pieces heap.now) }
{
    if index == 1 {
        return heap;
    }
    // The piece begins after zero byte index - 1, whose block is not passed.
    let blocks = skip_blocks(heap, index - 2);
    let mut rest = blocks.rest;
    for _ in blocks.zeros + 1..index {
        rest = &rest[piece_end(rest, 0) + 1..];
    }
    rest
}

// Where the first piece ends, none of whose first bytes up to from is zero: at the first zero byte, or at the end.
// By index: with `position`, and with the bytes from there on as a slice, a search of 20,000 names takes 1.4 times the time.
pub(crate) fn piece_end(rest: &[u8], from: usize) -> usize
    requires { Running rest.now from }
    ensures { FirstPiece rest.now result }
{
    for i in from..rest.len() {
        if rest[i] == 0 {
            return i;
        }
    }
    rest.len()
}

// Where a piece ends, and whether its bytes are wanted.
// The end as an index, and no rest as a slice: the last piece may end with the heap, and an empty rest would be one more piece, an empty one.
// In the early exits a slice from n on would cost two instructions for each byte besides, since its end is kept beside it.
#[derive(Clone, Copy, Debug, PartialEq, Eq)]
pub(crate) struct Compared {
    pub(crate) equal: bool,
    pub(crate) end: usize,
}

// Compares the first piece with wanted while its end is looked for: `==` after the end is found takes 1.3 times the time.
// A zero byte ends the piece, also where wanted has one.
pub(crate) fn compare_piece(rest: &[u8], wanted: &[u8]) -> Compared
    ensures { ComparesPiece rest.now wanted.now result }
{
    for (n, byte) in wanted.iter().enumerate() {
        if n == rest.len() || rest[n] == 0 {
            return Compared {
                equal: false,
                end: n,
            };
        }
        if rest[n] != *byte {
            return Compared {
                equal: false,
                end: piece_end(rest, n),
            };
        }
    }
    let end = piece_end(rest, wanted.len());
    Compared {
        equal: end == wanted.len(),
        end,
    }
}

impl<'a> Metadata<'a> {
    // The name heap from byte start of the blob on.
    pub(crate) fn heap_at(self, start: usize) -> &'a [u8]
        requires { start ≤ get_or self.w.offsets 0 0 }
        ensures { let end = get_or self.entry.w.offsets 0 0 in
            (result.now ≡ slice start end self.entry.blob.now) × (start + length result.now ≡ end) }
    {
        &self.blob[start..self.w.offsets[0]]
    }

    // The name heap from the piece of a name that is stored on.
    pub(crate) fn heap_from(self, index: u32) -> &'a [u8]
        requires { (1 ≤ index) × (index ≤ self.w.names) }
        ensures { let heap = heap_of self.entry.blob.now (get_or self.entry.w.offsets 0 0) in
            pieces result.now ≡ drop (index - 1) (pieces heap) }
    {
        from_piece(self.heap_at(HEADER), index as usize)
    }

    // The bytes of a name that is declared: none for index 0, else those of piece index.
    // That it is declared is asked, and no struct of a checked index has it: check 11 is most often of triples, whose names are not read by
    // their index. The bound on the length is a blob's, which its parts have.
    pub(crate) fn own_bytes(self, index: u32) -> &'a [u8]
        requires { index ≤ self.w.names }
        ensures { (result.now ≡ own_bytes self.entry.blob.now self.entry.w index) × (length result.now ≤ 16777216) }
    {
        if index == 0 {
            return &self.blob[0..0];
        }
        let rest = self.heap_from(index);
        &rest[..piece_end(rest, 0)]
    }
}

// Check 11 for a name index.
pub(crate) fn check_name(w: FileWrapper, index: u32) -> Result<(), MatError>
    ensures { outcome result ≡ check_name w index }
{
    if w.names < index {
        return Err(MatError::NameIndexOutOfRange(u64::from(index)));
    }
    Ok(())
}

// The name of an index, repaired, at the start of text: how long it is, and how many replacement characters stand in it.
pub fn name(blob: &[u8], index: u32, text: &mut [u8]) -> Result<LossySize, MatError>
    ensures { WritesText (name_text blob.now index) text.old result text.new }
{
    let metadata = Metadata::open(blob)?;
    check_name(metadata.w, index)?;
    write_shown(metadata.own_bytes(index), text)
}

// Bytes as they are shown, at the start of text.
pub(crate) fn write_shown(bytes: &[u8], text: &mut [u8]) -> Result<LossySize, MatError>
    ensures { WritesText (ok (shown_bytes bytes.now)) text.old result text.new }
{
    write_lossy(bytes, text)
}

// The size of bytes as they are shown: of a part of a blob it fits 64 bits.
// A struct of bytes with that bound would be made for this one call by Replaced::look_at, and opened again by write_joined for put_lossy.
pub(crate) fn shown_size(bytes: &[u8]) -> LossySize
    requires { length bytes.now ≤ 16777216 }
    ensures { IsSize bytes.now result }
{
    lossy_length(bytes).unwrap_or_default()
}
