// The recorded labels. Both calls are made anew, the one that gives the label and the one that tells where it lies, and held to the line.
use crate::fields::{Fields, zeros};
use crate::render::{Bytes, Fault};
use reader::labels::{Part, label, label_source};

// label BLOB PLACEHOLDER index. A refused label must be empty.
pub fn label_of(mut fields: Fields<'_>) -> Result<(), Fault> {
    let (mut blob, mut placeholder) = (zeros(), zeros());
    let blob = fields.bytes(&mut blob)?;
    let placeholder = fields.bytes(&mut placeholder)?;
    let index = fields.number()?;
    let label = label(blob, placeholder, index);
    match label_source(blob, placeholder, index) {
        Ok(part) => says_label(fields, label, part),
        Err(e) => fields.refuses(e, label.is_empty()),
    }
}

// A label, and where it was said to lie. One of another length agrees with no line.
fn says_label(fields: Fields<'_>, label: &[u8], part: Part) -> Result<(), Fault> {
    let Part {
        source,
        start,
        length,
    } = part;
    if label.len() != length {
        return Err(Fault::Differs);
    }
    let bytes = Bytes(label);
    fields.says(format_args!("ok {source} {start} {length} {bytes}"))
}
