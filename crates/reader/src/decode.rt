// String objects through opaque metadata: document 01's first road.
ghost use Rattle.std.specs.Prelude.{◌≡◌, ◌≤◌, length};
ghost use Rattle.text.specs.Replies.{outcome};
ghost use Rattle.text.specs.Result.{map_result};
ghost use Rattle.reader.specs.Decode.{id_strings, ids_strings, metadata_strings};
ghost use Rattle.reader.specs.Stages.Cells.{of_cells};
ghost use Rattle.reader.specs.Replies.{size_of, DecodesStrings};
ghost use Rattle.reader.specs.Stages.Saveobj.{origin, FitsAt, WritesAt};

use crate::cells::Cells;
use crate::file_wrapper::FileWrapper;
use crate::opaque::parse_opaque_metadata;
use crate::saveobj::{DecodedSize, Position, check_outputs, measure_saveobj, put_payload};
use text::error::MatError;

// Checks 14, 15 and 22 to 29 for one id, and what its strings need.
#[tactic(auto, unfolding(crate::specs::Decode::id_strings))]
fn measure_id(cells: Cells, id: u32) -> Result<DecodedSize, MatError>
    ensures { let strings = of_cells id_strings cells.entry id in
        outcome result ≡ map_result size_of strings }
{
    measure_saveobj(cells.cell_of(id)?)
}

// The same for each id in turn.
fn measure_ids(cells: Cells, ids: &[u32]) -> Result<DecodedSize, MatError>
    requires { length ids.now ≤ 65536 }
    ensures { let strings = of_cells ids_strings cells.entry ids.now in
        outcome result ≡ map_result size_of strings }
{
    let mut bytes: usize = 0;
    let mut strings: usize = 0;
    for id in ids {
        let more = measure_id(cells, *id)?;
        bytes += more.bytes;
        strings += more.strings;
    }
    Ok(DecodedSize { bytes, strings })
}

// Writes the strings of an id that was measured, and returns the position after them.
fn put_id(cells: Cells, id: u32, text: &mut [u8], spans: &mut [u64], at: Position) -> Position
    requires { let strings = of_cells id_strings cells id in
        FitsAt strings (length text.old) (length spans.old) at }
    ensures { let strings = of_cells id_strings cells.entry id in
        WritesAt strings at text.old spans.old result text.new spans.new }
{
    match cells.cell_of(id) {
        Ok(payload) => put_payload(payload, text, spans, at),
        // It was measured, as FitsAt says.
        Err(_) => at,
    }
}

// The same for each id in turn, from the start of text and spans on.
fn put_ids(cells: Cells, ids: &[u32], text: &mut [u8], spans: &mut [u64]) -> Position
    requires { let strings = of_cells ids_strings cells ids.now in
        FitsAt strings (length text.old) (length spans.old) origin }
    ensures { let strings = of_cells ids_strings cells.entry ids.now in
        WritesAt strings origin text.old spans.old result text.new spans.new }
{
    let mut at = Position::default();
    for id in ids {
        at = put_id(cells, *id, text, spans, at);
    }
    at
}

// Measures and writes the strings of each id. decode_string_saveobj has the same steps: a common function would take the last as a closure, and
// save no line.
fn write_ids(
    cells: Cells,
    ids: &[u32],
    text: &mut [u8],
    spans: &mut [u64],
) -> Result<DecodedSize, MatError>
    requires { length ids.now ≤ 65536 }
    ensures { let strings = of_cells ids_strings cells.entry ids.now in
        DecodesStrings strings text.old spans.old result text.new spans.new }
{
    let size = measure_ids(cells, ids)?;
    check_outputs(size, text.len(), spans.len())?;
    put_ids(cells, ids, text, spans);
    Ok(size)
}

// The strings of the objects that opaque metadata names (01's first road), as UTF-8 text end to end at the start of text, with their spans
// at the start of spans.
pub fn decode_string(
    blob: &[u8],
    directory: &[u64],
    kinds: &[u8],
    words: &[u64],
    metadata: &[u32],
    text: &mut [u8],
    spans: &mut [u64],
) -> Result<DecodedSize, MatError>
    ensures { let cells = metadata_strings blob.now directory.now kinds.now words.now in
        let strings = cells metadata.now in
        DecodesStrings strings text.old spans.old result text.new spans.new }
{
    FileWrapper::parse(blob)?;
    let cells = Cells::new(directory, kinds, words)?;
    let m = parse_opaque_metadata(metadata)?;
    let ids = &metadata[m.first_id..m.first_id + m.ids];
    write_ids(cells, ids, text, spans)
}
