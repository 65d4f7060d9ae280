// An edit of a store by its kind.
ghost use Rattle.std.specs.Result.{result_unwrap_or};
ghost use Rattle.store.specs.Model.{call};
ghost use Rattle.store.specs.Replies.{store_with, edit_in, Edits};

use crate::append::append_at;
use crate::array::StringArray;
use crate::counts::Counts;
use crate::replace::replace_at;
use text::error::MatError;

// Where an edit puts its array: after the last one of a store, or in place of that of an object.
#[derive(Clone, Copy, Debug, PartialEq, Eq)]
pub enum Edit {
    Append,
    Replace(u64),
}

// Makes an edit, and answers the counts after it; a refused one leaves them.
pub fn edit_at(
    counts: Counts,
    blob: &mut [u8],
    directory: &mut [u64],
    kinds: &mut [u8],
    words: &mut [u64],
    edit: Edit,
    array: StringArray<'_>,
) -> Result<Counts, MatError>
    ensures { let s = store_with counts blob.old directory.old kinds.old words.old in
        let t = store_with (result_unwrap_or result counts) blob.new directory.new kinds.new words.new in
        Edits s (call s (edit_in edit array.entry)) result t }
{
    match edit {
        Edit::Append => append_at(counts, blob, directory, kinds, words, array),
        Edit::Replace(id) => replace_at(counts, blob, directory, kinds, words, id, array),
    }
}
