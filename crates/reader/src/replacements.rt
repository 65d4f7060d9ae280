// How many replacement characters the names of property rows are shown with.
ghost use Rattle.std.specs.Prelude.{◌≡◌, map, cond};
ghost use Rattle.reader.specs.Names.{shown_bytes};
ghost use Rattle.reader.specs.Stages.Replacements.{recounted, SoundNames, CountsRows};

use crate::chunks::{CHUNK, Chunk, Look, Looked, NameWalk};
use crate::file_wrapper::{HEADER, Metadata};
use crate::names::{piece_end, shown_size};
use crate::properties::PropertyRow;
use text::utf8::validate;

// How many replacement characters a name is shown with.
#[derive(Clone, Copy)]
struct Replaced {}

impl Look for Replaced {
    type Value = u32;

    ghost usual = { 0 };

    ghost told = { λ s name. (shown_bytes name).replaced };

    // Index 0 is the empty name, before the first piece.
    fn look_at(self, metadata: Metadata, index: usize, start: usize) -> Looked<u32> {
        if index == 0 {
            return Looked {
                value: 0,
                any: false,
                next: start,
            };
        }
        let rest = metadata.heap_at(start);
        let end = piece_end(rest, 0);
        let replaced = shown_size(&rest[..end]).replaced as u32;
        Looked {
            value: replaced,
            any: 0 < replaced,
            next: start + end + 1,
        }
    }
}

// A row with the counts of the names of a chunk put in: that of its name, and that of its value where it is a name.
#[tactic(auto, unfolding(crate::specs::Stages::Replacements::recounted))]
fn recount(row: PropertyRow, counts: &[u32; CHUNK], chunk: Chunk) -> PropertyRow
    ensures { result ≡ recounted counts.now chunk.first chunk.end row }
{
    let name_replaced = chunk.get_or(counts, row.name_index, row.name_replaced);
    let is_name = row.field_type == 0;
    if is_name {
        return PropertyRow {
            name_replaced,
            value_replaced: chunk.get_or(counts, row.value, row.value_replaced),
            ..row
        };
    }
    PropertyRow {
        name_replaced,
        ..row
    }
}

// The same for all rows, where a name of the chunk has a replacement character.
fn recount_rows(counts: &[u32; CHUNK], chunk: Chunk, rows: &mut [PropertyRow])
    ensures { let all = map (recounted counts.now chunk.first chunk.end) rows.old in
        rows.new ≡ cond chunk.any all rows.old }
{
    if !chunk.any {
        return;
    }
    for row in rows.iter_mut() {
        *row = recount(*row, counts, chunk);
    }
}

// Whether the name heap is well-formed as a whole: each of its names is then, since no sequence but that of U+0000 has a zero byte.
fn is_sound(metadata: Metadata) -> bool
    ensures { SoundNames metadata.entry result }
{
    if metadata.w.names == 0 {
        return true;
    }
    validate(metadata.heap_at(HEADER)).is_ok()
}

// Puts the counts of their names into rows, which hold none. Names are sound as a rule, and then nothing is counted; else the heap is walked
// once, and the rows are gone over once for each chunk of names in which there is a replacement character.
// A `while`, since a chunk tells where the next begins.
pub(crate) fn count_replaced(metadata: Metadata, rows: &mut [PropertyRow])
    ensures { CountsRows metadata.entry rows.old rows.new }
{
    if rows.is_empty() {
        return;
    }
    if is_sound(metadata) {
        return;
    }
    let names = metadata.w.names as usize;
    let mut counts = [0; CHUNK];
    let mut walk = NameWalk::stored(metadata);
    while walk.name <= names {
        let chunk = walk.next_chunk(Replaced {}, &mut counts);
        recount_rows(&counts, chunk, rows);
    }
}
