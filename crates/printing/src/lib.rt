// Prints the listing of a metadata blob: how many names it declares, its objects with their classes, and their properties.
// What several functions promise alike has one name in specs/. Buffers are lent or of a fixed size and cut to what was written: no heap.
#![tactic(auto)]

pub mod input;
pub mod lines;
mod output;

ghost use Rattle.std.specs.Prelude.{◌<◌, ◌≤◌, IfOk, take, length};
ghost use Rattle.std.specs.Io.KnownBytes.{Consumes, IsAtEnd};
ghost use Rattle.printing.specs.Input.{bytes_of};

use crate::lines::LinePart;
use input::{ReadFailed, read_full};
use output::{Output, buffer, tell};
use reader::classes::object_class_name;
use reader::file_wrapper::FileWrapper;
use reader::names::name;
use reader::properties::{PropertyRow, properties};
use std::io::Read;
use text::error::MatError;

// The bytes of the buffers that are lent: a blob's, a name's, and those of the output.
const LARGE: usize = 65536;

// The property rows that are lent: one for each 12 bytes of a blob of 65,536.
const ROWS: usize = 5461;

// A blob that is listed, and the buffers of a line's names: for a name, and for the name that is a property's value.
// The rows are no field: they are lent for a whole list of properties, and the names anew for each line of it. Nor is the output: the check
// has no rule for a buffer of `self` that is lent to a method of another field of it.
#[derive(Drop)]
struct Listing<'a, 'b> {
    blob: &'a [u8],
    text: &'b mut [u8],
    value: &'b mut [u8],
}

impl Listing<'_, '_> {
    // The rest of a line whose value is a number.
    fn list_number(
        &mut self,
        o: &mut Output<'_, impl Print + Eprint>,
        name_index: u32,
        value: LinePart,
    ) -> Result<(), MatError> {
        let size = name(self.blob, name_index, self.text)?;
        o.put_name(&self.text[0..size.bytes]);
        o.put_part(value);
        Ok(())
    }

    // The rest of a line whose value is a name. Both names are there before either is printed.
    fn list_named(
        &mut self,
        o: &mut Output<'_, impl Print + Eprint>,
        name_index: u32,
        value: u32,
    ) -> Result<(), MatError> {
        let shown = name(self.blob, value, self.value)?;
        let size = name(self.blob, name_index, self.text)?;
        o.put_name(&self.text[0..size.bytes]);
        o.put_part(LinePart::Name);
        o.put_name(&self.value[0..shown.bytes]);
        o.put_part(LinePart::End);
        Ok(())
    }

    // One line: the property, or that one of its names does not fit its buffer.
    // The number in the row picks, as the row has it from the reader.
    fn list_property(&mut self, o: &mut Output<'_, impl Print + Eprint>, row: PropertyRow) {
        o.put_part(LinePart::Property);
        let listed = match row.field_type {
            0 => self.list_named(o, row.name_index, row.value),
            1 => self.list_number(o, row.name_index, LinePart::Heap(row.value)),
            _ => self.list_number(o, row.name_index, LinePart::Inline(row.value)),
        };
        if let Err(e) = listed {
            o.put_refusal(e);
        }
    }

    fn list_properties(
        &mut self,
        o: &mut Output<'_, impl Print + Eprint>,
        object_id: u32,
        rows: &mut [PropertyRow],
    ) {
        match properties(self.blob, object_id, rows) {
            Ok(n) => {
                for row in &rows[0..n] {
                    self.list_property(o, *row);
                    if o.failed {
                        return;
                    }
                }
            }
            Err(e) => {
                o.put_part(LinePart::Property);
                o.put_refusal(e);
            }
        }
    }

    fn list_object(
        &mut self,
        o: &mut Output<'_, impl Print + Eprint>,
        object_id: u32,
        rows: &mut [PropertyRow],
    ) {
        o.put_part(LinePart::Object(object_id));
        match object_class_name(self.blob, object_id, self.text) {
            Ok(size) => {
                o.put_name(&self.text[0..size.bytes]);
                o.put_part(LinePart::End);
                self.list_properties(o, object_id, rows);
            }
            Err(e) => o.put_refusal(e),
        }
    }
}

// The objects 1 to records - 1.
fn list_objects(o: &mut Output<'_, impl Print + Eprint>, blob: &[u8], records: u32) {
    let mut listing = Listing {
        blob,
        text: &mut buffer::<u8, LARGE>(),
        value: &mut buffer::<u8, LARGE>(),
    };
    let rows: &mut [PropertyRow] = &mut buffer::<PropertyRow, ROWS>();
    for id in 1..records {
        listing.list_object(o, id, rows);
        if o.failed {
            return;
        }
    }
}

// Prints the listing of a blob, or its refusal, and answers whether all of it was written.
// A bool and no io::Result: the error was told on standard error when it came.
pub fn list(rt: &(impl Print + Eprint), blob: &[u8]) -> bool {
    let out: &mut [u8] = &mut buffer::<u8, LARGE>();
    let mut o = Output::new(rt, out);
    match FileWrapper::parse(blob) {
        Ok(w) => {
            o.put_part(LinePart::Names(w.names));
            list_objects(&mut o, blob, w.records as u32);
        }
        Err(e) => o.put_refusal(e),
    }
    o.finish()
}

fn print_too_long(rt: &(impl Print + Eprint)) {
    let out: &mut [u8] = &mut buffer::<u8, 4096>();
    let mut o = Output::new(rt, out);
    o.put_part(LinePart::TooLong);
    o.finish();
}

// Reads to the start of buf as read_full does, and tells on standard error where a read failed.
fn read_told<R: Read>(rt: &impl Eprint, reader: &mut R, buf: &mut [u8]) -> Result<usize, ReadFailed>
    ensures most { bytes_of result ≤ length buf.new }
    ensures front { Consumes (R.remaining reader.old) (R.remaining reader.new) (take (bytes_of result) buf.new) }
    ensures whole { IfOk result (λ n. n < length buf.new → IsAtEnd (R.remaining reader.new)) }
{
    let read = read_full(reader, buf);
    if let Err(failed) = &read {
        tell(rt, "standard input", &failed.error);
    }
    read
}

// Prints the listing of the blob on standard input, of at most 65,536 bytes. A read that fails is told on standard error.
pub fn list_input(rt: &(impl Input + Print + Eprint)) {
    let mut reader = rt.reader();
    let blob: &mut [u8] = &mut buffer::<u8, LARGE>();
    let Ok(n) = read_told(rt, &mut reader, blob) else {
        return;
    };
    let after: &mut [u8] = &mut [0u8; 1];
    let Ok(more) = read_told(rt, &mut reader, after) else {
        return;
    };
    if more != 0 {
        print_too_long(rt);
        return;
    }
    let all: &[u8] = blob;
    list(rt, &all[0..n]);
}
