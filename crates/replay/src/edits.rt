// The recorded edits of a store: each reads the store and the array from the line, is made anew, and its answer and the store after it are
// held to the line's.
use crate::fields::{Buffers, Fields, Store, zeros};
use crate::render::{Bytes, Fault, Words};
use store::counts::Counts;
use store::edits::{Edit, edit_at};

// Whether a store's buffers are still those that the line lends. They are read again, since a field may be in shorthand.
fn is_kept(mut line: Fields<'_>, buffers: &Buffers) -> Result<bool, Fault> {
    let mut lent = Buffers::new();
    line.store(&mut lent)?;
    Ok(lent == *buffers)
}

// BLOB DIRECTORY KINDS WORDS objects bytes words EDIT TEXT SPANS DIMS, of which a closure reads the edit. A refusal must leave the store as
// it was lent.
fn edited<F: FnOnce(&mut Fields<'_>) -> Result<Edit, Fault>>(
    line: Fields<'_>,
    read: F,
) -> Result<(), Fault>
    requires { F.IsAlwaysCallable read }
{
    let mut buffers = Buffers::new();
    let (mut text, mut spans, mut dims) = (zeros(), zeros(), zeros());
    let mut fields = line;
    let Store {
        blob,
        directory,
        kinds,
        words,
    } = fields.store(&mut buffers)?;
    let counts = fields.counts()?;
    let edit = read(&mut fields)?;
    let array = fields.array(&mut text, &mut spans, &mut dims)?;
    match edit_at(counts, blob, directory, kinds, words, edit, array) {
        Ok(counts) => {
            let Counts {
                objects,
                blob_bytes,
                words: used,
            } = counts;
            let (blob, directory) = (Bytes(blob), Words(directory));
            let (kinds, words) = (Bytes(kinds), Words(words));
            fields.says(format_args!(
                "ok {objects} {blob_bytes} {used} {blob} {directory} {kinds} {words}"
            ))
        }
        Err(e) => fields.refuses(e, is_kept(line, &buffers)?),
    }
}

// appendto BLOB DIRECTORY KINDS WORDS objects bytes words TEXT SPANS DIMS
pub fn appendto(line: Fields<'_>) -> Result<(), Fault> {
    edited(line, |_| Ok(Edit::Append))
}

// replacein BLOB DIRECTORY KINDS WORDS objects bytes words id TEXT SPANS DIMS
pub fn replacein(line: Fields<'_>) -> Result<(), Fault> {
    edited(line, |fields| Ok(Edit::Replace(fields.number()?)))
}
