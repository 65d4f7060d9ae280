// The recorded calls of a blob, of strings and of UTF-8: each reads its arguments from the line, is made anew, and its answer is held to
// the line's.
use crate::fields::{Buffers, Fields, Store, zeros};
use crate::render::{Bytes, Fault, Rows, Words, is_blank, written};
use reader::classes::{class_name, object_class_name};
use reader::decode::decode_string;
use reader::file_wrapper::FileWrapper;
use reader::find::find_property;
use reader::listing::list_eight;
use reader::names::name;
use reader::opaque::parse_opaque_metadata;
use reader::properties::{PropertyRow, properties};
use reader::saveobj::{DecodedSize, decode_string_saveobj};
use reader::string_objects::decode_string_object;
use std::convert::AsSlice;
use std::fmt::Display;
use text::error::MatError;
use text::utf8::{LossySize, write_lossy};
use text::utf16::decode_utf16;
use writer::string_object::{build_string_filewrapper_metadata, encode_string_saveobj_payload};

// The property rows that are lent.
const ROWS: usize = 512;

// Holds a call to the line that writes to a buffer of zeros, and how what it wrote is shown.
fn says_written<'a, T: Default + PartialEq + Drop, D: Display + Drop, F: FnOnce(&'a [T]) -> D>(
    fields: Fields<'_>,
    reply: Result<usize, MatError>,
    buffer: &'a [T],
    show: F,
) -> Result<(), Fault>
    requires { F.IsAlwaysCallable show }
{
    match reply {
        Ok(n) => {
            let shown = show(written(buffer, n)?);
            fields.says(format_args!("ok {shown}"))
        }
        Err(e) => fields.refuses(e, is_blank(buffer)),
    }
}

// The same of one that writes bytes.
pub fn says_bytes(
    fields: Fields<'_>,
    reply: Result<usize, MatError>,
    buffer: &[u8],
) -> Result<(), Fault> {
    says_written(fields, reply, buffer, |bytes| Bytes(bytes))
}

// The same of one that writes rows.
// Beside says_written for the space, which stands before bytes and words and in rows.
fn says_rows<T: AsSlice<u32> + Copy + Default + PartialEq>(
    fields: Fields<'_>,
    reply: Result<usize, MatError>,
    buffer: &[T],
) -> Result<(), Fault> {
    match reply {
        Ok(n) => {
            let rows = Rows(written(buffer, n)?);
            fields.says(format_args!("ok{rows}"))
        }
        Err(e) => fields.refuses(e, is_blank(buffer)),
    }
}

// utf16 UNITS text-length
// It, lossy and latin9's converted read and lend items of other types: a frame would take the three and the call, for three lines.
pub fn utf16(mut fields: Fields<'_>) -> Result<(), Fault> {
    let (mut units, mut text) = (zeros(), zeros());
    let units = fields.units(&mut units)?;
    let text = fields.lent(&mut text)?;
    says_bytes(fields, decode_utf16(units, text), text)
}

// lossy BYTES
pub fn lossy(mut fields: Fields<'_>) -> Result<(), Fault> {
    let (mut source, mut text) = (zeros(), zeros());
    let source = fields.bytes(&mut source)?;
    let reply = write_lossy(source, &mut text).map(|size| size.bytes);
    says_bytes(fields, reply, &text)
}

// write TEXT SPANS DIMS words-length
pub fn write(mut fields: Fields<'_>) -> Result<(), Fault> {
    let (mut text, mut spans, mut dims, mut words) = (zeros(), zeros(), zeros(), zeros());
    let array = fields.array(&mut text, &mut spans, &mut dims)?;
    let words = fields.lent(&mut words)?;
    let reply = encode_string_saveobj_payload(array.dims, array.text, array.spans, words);
    says_written(fields, reply, words, |words| Words(words))
}

// build n blob-length
pub fn build(mut fields: Fields<'_>) -> Result<(), Fault> {
    let mut blob = zeros();
    let objects = fields.number()?;
    let blob = fields.lent(&mut blob)?;
    says_bytes(
        fields,
        build_string_filewrapper_metadata(objects, blob),
        blob,
    )
}

// open BLOB
pub fn open(mut fields: Fields<'_>) -> Result<(), Fault> {
    let mut blob = zeros();
    match FileWrapper::parse(fields.bytes(&mut blob)?) {
        Ok(w) => fields.says(format_args!("ok {} {} {}", w.names, w.classes, w.records)),
        Err(e) => fields.refuses(e, true),
    }
}

// BLOB number text-length, where a call writes the text of a number.
fn shown<F: FnOnce(&[u8], u32, &mut [u8]) -> Result<LossySize, MatError>>(
    mut fields: Fields<'_>,
    show: F,
) -> Result<(), Fault>
    requires { F.IsAlwaysCallable show }
{
    let (mut blob, mut text) = (zeros(), zeros());
    let blob = fields.bytes(&mut blob)?;
    let number = fields.number()?;
    let text = fields.lent(&mut text)?;
    match show(blob, number, text) {
        Ok(size) => {
            let bytes = Bytes(written(text, size.bytes)?);
            let replaced = size.replaced;
            fields.says(format_args!("ok {bytes} {replaced}"))
        }
        Err(e) => fields.refuses(e, is_blank(text)),
    }
}

// name BLOB index text-length
pub fn name_of(fields: Fields<'_>) -> Result<(), Fault> {
    shown(fields, name)
}

// class BLOB id text-length
pub fn class(fields: Fields<'_>) -> Result<(), Fault> {
    shown(fields, object_class_name)
}

// classid BLOB class-id text-length
pub fn classid(fields: Fields<'_>) -> Result<(), Fault> {
    shown(fields, class_name)
}

// wordlist WORDS32
pub fn wordlist(mut fields: Fields<'_>) -> Result<(), Fault> {
    let mut words = zeros();
    match parse_opaque_metadata(fields.units(&mut words)?) {
        Ok(list) => fields.says(format_args!(
            "ok {} {} {}",
            list.first_id, list.ids, list.class_id
        )),
        Err(e) => fields.refuses(e, true),
    }
}

// props BLOB id rows-length
pub fn props(mut fields: Fields<'_>) -> Result<(), Fault> {
    let mut blob = zeros();
    let mut rows = [PropertyRow::default(); ROWS];
    let blob = fields.bytes(&mut blob)?;
    let id = fields.number()?;
    let reply = properties(blob, id, fields.lent(&mut rows)?);
    let rows = rows.map(|row| {
        [
            row.name_index,
            row.field_type,
            row.value,
            row.name_replaced,
            row.value_replaced,
        ]
    });
    says_rows(fields, reply, &rows)
}

// find BLOB id WANTED
pub fn find(mut fields: Fields<'_>) -> Result<(), Fault> {
    let (mut blob, mut wanted) = (zeros(), zeros());
    let blob = fields.bytes(&mut blob)?;
    let id = fields.number()?;
    let wanted = fields.bytes(&mut wanted)?;
    match find_property(blob, id, wanted) {
        Ok(Some(position)) => fields.says(format_args!("ok {position}")),
        Ok(None) => fields.says("ok none"),
        Err(e) => fields.refuses(e, true),
    }
}

// text-length spans-length, where a call decodes strings.
fn decoded<F: FnOnce(&mut [u8], &mut [u64]) -> Result<DecodedSize, MatError>>(
    mut fields: Fields<'_>,
    decode: F,
) -> Result<(), Fault>
    requires { F.IsAlwaysCallable decode }
{
    let (mut text, mut spans) = (zeros(), zeros());
    let text = fields.lent(&mut text)?;
    let spans = fields.lent(&mut spans)?;
    match decode(text, spans) {
        Ok(size) => {
            let text = Bytes(written(text, size.bytes)?);
            let spans = Words(written(spans, size.strings.saturating_mul(2))?);
            fields.says(format_args!("ok {text} {spans}"))
        }
        Err(e) => fields.refuses(e, is_blank(text) && is_blank(spans)),
    }
}

// payload WORDS text-length spans-length
pub fn payload(mut fields: Fields<'_>) -> Result<(), Fault> {
    let mut words = zeros();
    let words = fields.words(&mut words)?;
    decoded(
        fields,
        |text, spans| decode_string_saveobj(words, text, spans),
    )
}

// road1 BLOB DIRECTORY KINDS WORDS METADATA text-length spans-length: by opaque metadata
pub fn road1(mut fields: Fields<'_>) -> Result<(), Fault> {
    let mut buffers = Buffers::new();
    let mut metadata = zeros();
    let Store {
        blob,
        directory,
        kinds,
        words,
    } = fields.store(&mut buffers)?;
    let metadata = fields.units(&mut metadata)?;
    decoded(fields, |text, spans| {
        decode_string(blob, directory, kinds, words, metadata, text, spans)
    })
}

// road2 BLOB DIRECTORY KINDS WORDS id text-length spans-length: through the object's property
pub fn road2(mut fields: Fields<'_>) -> Result<(), Fault> {
    let mut buffers = Buffers::new();
    let Store {
        blob,
        directory,
        kinds,
        words,
    } = fields.store(&mut buffers)?;
    let id = fields.number()?;
    decoded(fields, |text, spans| {
        decode_string_object(blob, directory, kinds, words, id, text, spans)
    })
}

// objects BLOB rows-length, where eight rows are enough.
pub fn objects(mut fields: Fields<'_>) -> Result<(), Fault> {
    let mut blob = zeros();
    let blob = fields.bytes(&mut blob)?;
    fields.take();
    let list = list_eight(blob);
    let rows = list.rows.map(|row| [row.class_id, row.region, row.block_id, row.property_count]);
    says_rows(fields, list.reply, &rows)
}
