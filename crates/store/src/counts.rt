// The counts of a store, and the edits of a store whose counts are lent, which is the form that document 01 names.
ghost use Rattle.std.specs.Prelude.{◌≡◌, ◌≤◌};
ghost use Rattle.store.specs.Edits.{appended, replaced};
ghost use Rattle.store.specs.Replies.{store_with, Edits};
ghost use Rattle.store.specs.Stages.{counts_of};

use crate::append::append_at;
use crate::array::StringArray;
use crate::replace::replace_at;
use text::error::MatError;
pub use writer::string_object::{BLOB_BASE, BLOB_STEP};

// How many objects, bytes of the blob and words a store has.
// They stand beside the buffers, which C lends with more room than is counted: there is no heap for vectors.
#[repr(C)]
#[derive(Clone, Copy, Debug, PartialEq, Eq)]
pub struct Counts {
    pub objects: u64,
    pub blob_bytes: u64,
    pub words: u64,
}

impl Counts {
    // Those of a store of no objects.
    pub const EMPTY: Counts = Counts {
        objects: 0,
        blob_bytes: BLOB_BASE,
        words: 0,
    };

    // Those of a store of so many objects and words.
    pub(crate) fn of(objects: u64, words: u64) -> Counts
        requires { objects ≤ 349523 }
        ensures { result ≡ counts_of objects words }
    {
        Counts {
            objects,
            blob_bytes: BLOB_BASE + BLOB_STEP * objects,
            words,
        }
    }
}

// Adds an array after the last one of a store.
pub fn append(
    counts: &mut Counts,
    blob: &mut [u8],
    directory: &mut [u64],
    kinds: &mut [u8],
    words: &mut [u64],
    array: StringArray<'_>,
) -> Result<(), MatError>
    ensures { let s = store_with counts.old blob.old directory.old kinds.old words.old in
        let t = store_with counts.new blob.new directory.new kinds.new words.new in
        let a = array.entry in
        Edits s (appended s a.dims.now a.text.now a.spans.now) result t }
{
    *counts = append_at(*counts, blob, directory, kinds, words, array)?;
    Ok(())
}

// Puts an array in place of that of an object.
pub fn replace(
    counts: &mut Counts,
    blob: &[u8],
    directory: &mut [u64],
    kinds: &[u8],
    words: &mut [u64],
    object_id: u64,
    array: StringArray<'_>,
) -> Result<(), MatError>
    ensures { let s = store_with counts.old blob.now directory.old kinds.now words.old in
        let t = store_with counts.new blob.now directory.new kinds.now words.new in
        let a = array.entry in
        Edits s (replaced s object_id a.dims.now a.text.now a.spans.now) result t }
{
    *counts = replace_at(*counts, blob, directory, kinds, words, object_id, array)?;
    Ok(())
}
