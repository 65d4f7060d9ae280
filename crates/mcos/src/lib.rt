// The library's calls for C. Each answers 0 where the call is accepted, else the number of the check that does not hold (document 01's
// question). An accepted call writes the cells of its values and keeps the cell of the place; a refused one writes the place and nothing else.
// C passes each cell and each buffer by itself, so that they are parameters here, and the contracts name them alike.
#![tactic(auto)]

ghost use Rattle.std.specs.Prelude.{◌≡◌};
ghost use Rattle.text.specs.Errors.{failure_of};
ghost use Rattle.text.specs.Latin9.{export_latin9, import_latin9};
ghost use Rattle.text.specs.Replies.{outcome};
ghost use Rattle.text.specs.Utf16.{decode_utf16};
ghost use Rattle.writer.specs.Array.{encode_payload};
ghost use Rattle.writer.specs.FileWrapper.{build_metadata};
ghost use Rattle.writer.specs.Metadata.{object_metadata};
ghost use Rattle.writer.specs.Replies.{measured_payload};
ghost use Rattle.reader.specs.Decode.{metadata_strings, object_strings};
ghost use Rattle.reader.specs.Labels.{label_of};
ghost use Rattle.reader.specs.Objects.{find_property, object_rows, object_properties};
ghost use Rattle.reader.specs.Opaque.{opaque_metadata};
ghost use Rattle.reader.specs.Opening.{opened};
ghost use Rattle.reader.specs.Queries.{into_output, into_text, name_text, class_text, object_class_text};
ghost use Rattle.reader.specs.Saveobj.{decode_payload, into_strings};
ghost use Rattle.store.specs.Edits.{appended, replaced};
ghost use Rattle.store.specs.Replies.{store_with};
ghost use Rattle.mcos.specs.Exports.{count_cells, file_wrapper_cells, opaque_cells, part_cells, text_cells, Exports, ExportsEdit, ExportsFound, ExportsList, ExportsLossy, ExportsStrings, ExportsText};

pub mod cells;

use cells::{McosFileWrapper, McosPart};
use reader::file_wrapper::FileWrapper;
use reader::objects::ObjectRow;
use reader::properties::PropertyRow;
use reader::saveobj::DecodedSize;
use reader::{
    classes, decode, find, labels, listing, names, opaque, properties, saveobj, string_objects,
};
use store::append::append_at;
use store::array::StringArray;
use store::counts::Counts;
use store::replace::replace_at;
use text::error::MatError;
use text::utf8::LossySize;
use text::{latin9, utf8, utf16};
use writer::string_object;

// Writes the place of a failure and gives its number.
fn put_error(e: MatError, place: &mut u64) -> u32
    ensures value { result ≡ (failure_of e).number }
    ensures place_after { place.new ≡ (failure_of e).place }
{
    let failure = e.failure();
    *place = failure.place;
    failure.number
}

// Writes what a reply says, its value or its place, and gives its number.
fn put_value<T: Copy>(reply: Result<T, MatError>, cell: &mut T, place: &mut u64) -> u32
    ensures { Exports (λ x. x) (outcome reply) cell.old place.old result cell.new place.new }
{
    match reply {
        Ok(value) => {
            *cell = value;
            0
        }
        Err(e) => put_error(e, place),
    }
}

// The same of two numbers, since C lends a cell for each of them and no struct of both.
fn put_pair(
    reply: Result<(u64, u64), MatError>,
    first: &mut u64,
    second: &mut u64,
    place: &mut u64,
) -> u32
    ensures { Exports (λ x. x) (outcome reply) (first.old, second.old) place.old
        result (first.new, second.new) place.new }
{
    match reply {
        Ok((a, b)) => {
            *first = a;
            *second = b;
            0
        }
        Err(e) => put_error(e, place),
    }
}

// Here and in the two below, sizes become the 64 bits of C's cells: once, and not at each of the calls that give such a reply.
fn put_length(reply: Result<usize, MatError>, length: &mut u64, place: &mut u64) -> u32
    ensures { Exports (λ x. x) (outcome reply) length.old place.old result
        length.new place.new }
{
    put_value(reply.map(|n| n as u64), length, place)
}

fn put_text(
    reply: Result<LossySize, MatError>,
    bytes: &mut u64,
    replaced: &mut u64,
    place: &mut u64,
) -> u32
    ensures { Exports (λ x. x) (outcome reply) (text_cells bytes.old replaced.old) place.old
        result (text_cells bytes.new replaced.new) place.new }
{
    let cells = reply.map(|size| (size.bytes as u64, size.replaced as u64));
    put_pair(cells, bytes, replaced, place)
}

fn put_strings(
    reply: Result<DecodedSize, MatError>,
    bytes: &mut u64,
    strings: &mut u64,
    place: &mut u64,
) -> u32
    ensures { Exports (λ x. x) (outcome reply) (count_cells bytes.old strings.old) place.old
        result (count_cells bytes.new strings.new) place.new }
{
    let cells = reply.map(|size| (size.bytes as u64, size.strings as u64));
    put_pair(cells, bytes, strings, place)
}

// Each call from here on is a C name with a contract of its own, also where two differ in the call that they make alone.
#[unsafe(no_mangle)]
pub extern "C" fn mcos_decode_utf16(
    units: &[u16],
    text: &mut [u8],
    bytes: &mut u64,
    place: &mut u64,
) -> u32
    ensures { let m = decode_utf16 units.now in
        ExportsList (λ x. x) m text.old bytes.old place.old result
        text.new bytes.new place.new }
{
    put_length(utf16::decode_utf16(units, text), bytes, place)
}

#[unsafe(no_mangle)]
pub extern "C" fn mcos_write_lossy(
    s: &[u8],
    out: &mut [u8],
    bytes: &mut u64,
    replaced: &mut u64,
    place: &mut u64,
) -> u32
    ensures { ExportsLossy s.now out.old bytes.old replaced.old place.old
        result out.new bytes.new replaced.new place.new }
{
    put_text(utf8::write_lossy(s, out), bytes, replaced, place)
}

#[unsafe(no_mangle)]
pub extern "C" fn mcos_export_latin9(
    text: &[u8],
    out: &mut [u8],
    bytes: &mut u64,
    place: &mut u64,
) -> u32
    ensures { let m = export_latin9 text.now in
        ExportsList (λ x. x) m out.old bytes.old place.old result
        out.new bytes.new place.new }
{
    put_length(latin9::export_latin9(text, out), bytes, place)
}

#[unsafe(no_mangle)]
pub extern "C" fn mcos_import_latin9(
    latin9: &[u8],
    text: &mut [u8],
    bytes: &mut u64,
    place: &mut u64,
) -> u32
    ensures { let m = import_latin9 latin9.now in
        ExportsList (λ x. x) m text.old bytes.old place.old result
        text.new bytes.new place.new }
{
    put_length(latin9::import_latin9(latin9, text), bytes, place)
}

#[unsafe(no_mangle)]
pub extern "C" fn mcos_create_string_object_metadata(object_id: u32, metadata: &mut [u32; 6])
    ensures { metadata.new ≡ object_metadata object_id }
{
    *metadata = string_object::create_string_object_metadata(object_id);
}

#[unsafe(no_mangle)]
pub extern "C" fn mcos_measure_payload(
    dims: &[u64],
    text: &[u8],
    spans: &[u64],
    length: &mut u64,
    place: &mut u64,
) -> u32
    ensures { let outcome = measured_payload dims.now text.now spans.now in
        Exports (λ x. x) outcome length.old place.old result length.new place.new }
{
    put_length(
        string_object::measure_payload(dims, text, spans),
        length,
        place,
    )
}

#[unsafe(no_mangle)]
pub extern "C" fn mcos_encode_string_saveobj_payload(
    dims: &[u64],
    text: &[u8],
    spans: &[u64],
    words: &mut [u64],
    length: &mut u64,
    place: &mut u64,
) -> u32
    ensures { let outcome = encode_payload dims.now text.now spans.now in
        ExportsList (λ x. x) outcome words.old length.old place.old
        result words.new length.new place.new }
{
    put_length(
        string_object::encode_string_saveobj_payload(dims, text, spans, words),
        length,
        place,
    )
}

#[unsafe(no_mangle)]
pub extern "C" fn mcos_build_string_filewrapper_metadata(
    object_count: u64,
    blob: &mut [u8],
    length: &mut u64,
    place: &mut u64,
) -> u32
    ensures { ExportsList (λ x. x) (build_metadata object_count) blob.old length.old place.old
        result blob.new length.new place.new }
{
    put_length(
        string_object::build_string_filewrapper_metadata(object_count, blob),
        length,
        place,
    )
}

#[unsafe(no_mangle)]
pub extern "C" fn mcos_parse(blob: &[u8], layout: &mut McosFileWrapper, place: &mut u64) -> u32
    ensures { Exports file_wrapper_cells (opened blob.now) layout.old place.old
        result layout.new place.new }
{
    put_value(
        FileWrapper::parse(blob).map(McosFileWrapper::from),
        layout,
        place,
    )
}

#[unsafe(no_mangle)]
pub extern "C" fn mcos_name(
    blob: &[u8],
    index: u32,
    text: &mut [u8],
    bytes: &mut u64,
    replaced: &mut u64,
    place: &mut u64,
) -> u32
    ensures { let m = into_text (name_text blob.now index) in
        let cells = text_cells bytes.old replaced.old in
        let cells' = text_cells bytes.new replaced.new in
        ExportsText m text.old cells place.old result text.new cells' place.new }
{
    put_text(names::name(blob, index, text), bytes, replaced, place)
}

#[unsafe(no_mangle)]
pub extern "C" fn mcos_label(
    blob: &[u8],
    placeholder: &[u8],
    index: u32,
    part: &mut McosPart,
    place: &mut u64,
) -> u32
    ensures { let m = label_of blob.now placeholder.now index in
        Exports part_cells m part.old place.old result part.new place.new }
{
    let reply = labels::label_source(blob, placeholder, index);
    put_value(reply.map(McosPart::from), part, place)
}

#[unsafe(no_mangle)]
pub extern "C" fn mcos_class_name(
    blob: &[u8],
    class_id: u32,
    text: &mut [u8],
    bytes: &mut u64,
    replaced: &mut u64,
    place: &mut u64,
) -> u32
    ensures { let m = into_text (class_text blob.now class_id) in
        let cells = text_cells bytes.old replaced.old in
        let cells' = text_cells bytes.new replaced.new in
        ExportsText m text.old cells place.old result text.new cells' place.new }
{
    put_text(
        classes::class_name(blob, class_id, text),
        bytes,
        replaced,
        place,
    )
}

#[unsafe(no_mangle)]
pub extern "C" fn mcos_object_class_name(
    blob: &[u8],
    object_id: u32,
    text: &mut [u8],
    bytes: &mut u64,
    replaced: &mut u64,
    place: &mut u64,
) -> u32
    ensures { let m = into_text (object_class_text blob.now object_id) in
        let cells = text_cells bytes.old replaced.old in
        let cells' = text_cells bytes.new replaced.new in
        ExportsText m text.old cells place.old result text.new cells' place.new }
{
    put_text(
        classes::object_class_name(blob, object_id, text),
        bytes,
        replaced,
        place,
    )
}

#[unsafe(no_mangle)]
pub extern "C" fn mcos_properties(
    blob: &[u8],
    object_id: u32,
    rows: &mut [PropertyRow],
    count: &mut u64,
    place: &mut u64,
) -> u32
    ensures { let m = into_output (object_properties blob.now object_id) in
        ExportsList (λ x. x) m rows.old count.old place.old result
        rows.new count.new place.new }
{
    put_length(properties::properties(blob, object_id, rows), count, place)
}

// A match of its own: the cell of the position is written only where there is one, and no other call has such a cell.
#[unsafe(no_mangle)]
pub extern "C" fn mcos_find_property(
    blob: &[u8],
    object_id: u32,
    wanted: &[u8],
    found: &mut u32,
    position: &mut u64,
    place: &mut u64,
) -> u32
    ensures { ExportsFound (find_property blob.now object_id wanted.now)
        found.old position.old place.old
        result found.new position.new place.new }
{
    match find::find_property(blob, object_id, wanted) {
        Ok(Some(i)) => {
            *found = 1;
            *position = i as u64;
            0
        }
        Ok(None) => {
            *found = 0;
            0
        }
        Err(e) => put_error(e, place),
    }
}

#[unsafe(no_mangle)]
pub extern "C" fn mcos_list_objects(
    blob: &[u8],
    rows: &mut [ObjectRow],
    count: &mut u64,
    place: &mut u64,
) -> u32
    ensures { ExportsList (λ x. x) (into_output (object_rows blob.now))
        rows.old count.old place.old
        result rows.new count.new place.new }
{
    put_length(listing::list_objects(blob, rows), count, place)
}

// A match of its own: no other call has three cells for its value.
#[unsafe(no_mangle)]
pub extern "C" fn mcos_parse_opaque_metadata(
    metadata: &[u32],
    first_id: &mut u64,
    ids: &mut u64,
    class_id: &mut u32,
    place: &mut u64,
) -> u32
    ensures { let cells = opaque_cells first_id.old ids.old class_id.old in
        let cells' = opaque_cells first_id.new ids.new class_id.new in
        Exports (λ x. x) (opaque_metadata metadata.now) cells place.old result cells' place.new }
{
    match opaque::parse_opaque_metadata(metadata) {
        Ok(m) => {
            *first_id = m.first_id as u64;
            *ids = m.ids as u64;
            *class_id = m.class_id;
            0
        }
        Err(e) => put_error(e, place),
    }
}

#[unsafe(no_mangle)]
pub extern "C" fn mcos_decode_string_saveobj(
    payload: &[u64],
    text: &mut [u8],
    spans: &mut [u64],
    bytes: &mut u64,
    strings: &mut u64,
    place: &mut u64,
) -> u32
    ensures { ExportsStrings (into_strings (decode_payload payload.now))
        text.old spans.old (count_cells bytes.old strings.old) place.old
        result text.new spans.new (count_cells bytes.new strings.new) place.new }
{
    put_strings(
        saveobj::decode_string_saveobj(payload, text, spans),
        bytes,
        strings,
        place,
    )
}

#[unsafe(no_mangle)]
pub extern "C" fn mcos_decode_string(
    blob: &[u8],
    directory: &[u64],
    kinds: &[u8],
    words: &[u64],
    metadata: &[u32],
    text: &mut [u8],
    spans: &mut [u64],
    bytes: &mut u64,
    strings: &mut u64,
    place: &mut u64,
) -> u32
    ensures { let cells = metadata_strings blob.now directory.now kinds.now words.now in
        ExportsStrings (into_strings (cells metadata.now))
        text.old spans.old (count_cells bytes.old strings.old) place.old
        result text.new spans.new (count_cells bytes.new strings.new) place.new }
{
    put_strings(
        decode::decode_string(blob, directory, kinds, words, metadata, text, spans),
        bytes,
        strings,
        place,
    )
}

#[unsafe(no_mangle)]
pub extern "C" fn mcos_decode_string_object(
    blob: &[u8],
    directory: &[u64],
    kinds: &[u8],
    words: &[u64],
    object_id: u32,
    text: &mut [u8],
    spans: &mut [u64],
    bytes: &mut u64,
    strings: &mut u64,
    place: &mut u64,
) -> u32
    ensures { let cells = object_strings blob.now directory.now kinds.now words.now in
        ExportsStrings (into_strings (cells object_id))
        text.old spans.old (count_cells bytes.old strings.old) place.old
        result text.new spans.new (count_cells bytes.new strings.new) place.new }
{
    put_strings(
        string_objects::decode_string_object(blob, directory, kinds, words, object_id, text, spans),
        bytes,
        strings,
        place,
    )
}

// The counts of a store are its objects, its blob's bytes and its words.
#[unsafe(no_mangle)]
pub extern "C" fn mcos_append(
    counts: &mut Counts,
    blob: &mut [u8],
    directory: &mut [u64],
    kinds: &mut [u8],
    words: &mut [u64],
    dims: &[u64],
    text: &[u8],
    spans: &[u64],
    place: &mut u64,
) -> u32
    ensures { let s = store_with counts.old blob.old directory.old kinds.old words.old in
        let t = store_with counts.new blob.new directory.new kinds.new words.new in
        ExportsEdit s (appended s dims.now text.now spans.now)
        place.old result t place.new }
{
    let array = StringArray { dims, text, spans };
    let reply = append_at(*counts, blob, directory, kinds, words, array);
    put_value(reply, counts, place)
}

#[unsafe(no_mangle)]
pub extern "C" fn mcos_replace(
    counts: &mut Counts,
    blob: &[u8],
    directory: &mut [u64],
    kinds: &[u8],
    words: &mut [u64],
    object_id: u64,
    dims: &[u64],
    text: &[u8],
    spans: &[u64],
    place: &mut u64,
) -> u32
    ensures { let s = store_with counts.old blob.now directory.old kinds.now words.old in
        let t = store_with counts.new blob.now directory.new kinds.now words.new in
        ExportsEdit s (replaced s object_id dims.now text.now spans.now)
        place.old result t place.new }
{
    let array = StringArray { dims, text, spans };
    let reply = replace_at(*counts, blob, directory, kinds, words, object_id, array);
    put_value(reply, counts, place)
}
