// String objects of a metadata blob, and the strings that they lead to in a cell store.
ghost use Rattle.std.specs.Prelude.{◌≡◌, [], ◌∷◌, length};
ghost use Rattle.text.specs.Replies.{outcome};
ghost use Rattle.text.specs.Result.{ok};
ghost use Rattle.reader.specs.Stages.Cells.{of_cells};
ghost use Rattle.reader.specs.Decode.{property_strings, object_strings};
ghost use Rattle.reader.specs.Stages.StringObjects.{chosen_property, string_property};
ghost use Rattle.reader.specs.Queries.{object_record};
ghost use Rattle.reader.specs.Replies.{DecodesStrings};

use crate::cells::Cells;
use crate::file_wrapper::Metadata;
use crate::objects::Object;
use crate::properties::record_triples;
use crate::records::Triple;
use crate::saveobj::{DecodedSize, decode_string_saveobj};
use text::error::MatError;

// The property that leads to a string object's cell: the one named any, else the first. An object without properties has none. Checks 10 to
// 12. A name is shown as any exactly where it is stored so, and stored bytes are compared.
#[tactic(auto, unfolding(crate::specs::Stages::StringObjects::chosen_property))]
fn choose_property(object: Object) -> Result<Option<Triple>, MatError>
    ensures { let m = object.entry.metadata in
        outcome result ≡ chosen_property m.blob.now m.w (object_record m.blob.now m.w object.entry.id) }
{
    let triples = record_triples(object)?;
    if triples.count == 0 {
        return Ok(None);
    }
    let any = triples.first_named(b"any").unwrap_or(0);
    Ok(Some(triples.get(any)))
}

// The same for any id: checks 8, 9, 11 and 16 for the class before them.
fn string_property(metadata: Metadata, object_id: u32) -> Result<Option<Triple>, MatError>
    ensures { outcome result ≡ string_property metadata.entry.blob.now metadata.entry.w object_id }
{
    let object = metadata.check_object(object_id)?;
    metadata.check_string_class(object.record().class_id)?;
    choose_property(object)
}

// The strings of the cell that a property leads to: checks 16, 14 and 15, then those of its payload.
fn decode_property(
    cells: Cells,
    property: Triple,
    text: &mut [u8],
    spans: &mut [u64],
) -> Result<DecodedSize, MatError>
    ensures { let strings = of_cells property_strings cells.entry property in
        DecodesStrings strings text.old spans.old result text.new spans.new }
{
    if property.field_type != 1 {
        return Err(MatError::NotStringObject(1));
    }
    let value = property.value;
    let payload = cells.cell_at(value, value)?;
    decode_string_saveobj(payload, text, spans)
}

// One empty string: no bytes of text, and its span at the start of spans.
fn write_empty(spans: &mut [u64]) -> Result<DecodedSize, MatError>
    ensures { DecodesStrings (ok ([] ∷ [])) [] spans.old result [] spans.new }
{
    if spans.len() < 2 {
        return Err(MatError::OutputTooShort(2));
    }
    spans[0] = 0;
    spans[1] = 0;
    Ok(DecodedSize {
        bytes: 0,
        strings: 1,
    })
}

// The strings of a string object through its own property (01's second road), as UTF-8 text end to end at the start of text, with their
// spans at the start of spans.
pub fn decode_string_object(
    blob: &[u8],
    directory: &[u64],
    kinds: &[u8],
    words: &[u64],
    object_id: u32,
    text: &mut [u8],
    spans: &mut [u64],
) -> Result<DecodedSize, MatError>
    ensures { let cells = object_strings blob.now directory.now kinds.now words.now in
        let strings = cells object_id in
        DecodesStrings strings text.old spans.old result text.new spans.new }
{
    let metadata = Metadata::open(blob)?;
    let cells = Cells::new(directory, kinds, words)?;
    match string_property(metadata, object_id)? {
        Some(property) => decode_property(cells, property, text, spans),
        None => write_empty(spans),
    }
}
