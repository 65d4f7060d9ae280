// Appending an array to a store: all checks, then the writing.
ghost use Rattle.std.specs.Prelude.{length};
ghost use Rattle.std.specs.Result.{result_unwrap_or};
ghost use Rattle.store.specs.Edits.{appended};
ghost use Rattle.store.specs.Replies.{store_with, Edits};
ghost use Rattle.store.specs.Stages.{EntryFits, PutsEntry};

use crate::array::StringArray;
use crate::canonical::StoreRef;
use crate::counts::Counts;
use crate::edits::Edit;
use text::convert::to_usize;
use text::error::MatError;
use writer::string_object::build_string_filewrapper_metadata;

// Writes pair n of a directory, and kind n. By index, since what as_chunks_mut lends is known by its length alone afterwards. By n and with
// no parts: the directory has the pair from 2 * n on, and the kinds have the kind at n.
fn put_entry(n: usize, offset: u64, len: u64, directory: &mut [u64], kinds: &mut [u8])
    requires { EntryFits n (length directory.old) (length kinds.old) }
    ensures { PutsEntry n offset len directory.old kinds.old directory.new kinds.new }
{
    directory[2 * n] = offset;
    directory[2 * n + 1] = len;
    kinds[n] = 0;
}

// Adds an array after the last one of a store, and answers the counts after it; a refusal leaves them.
pub fn append_at(
    counts: Counts,
    blob: &mut [u8],
    directory: &mut [u64],
    kinds: &mut [u8],
    words: &mut [u64],
    array: StringArray<'_>,
) -> Result<Counts, MatError>
    ensures { let s = store_with counts blob.old directory.old kinds.old words.old in
        let t = store_with (result_unwrap_or result counts) blob.new directory.new kinds.new words.new in
        let a = array.entry in
        Edits s (appended s a.dims.now a.text.now a.spans.now) result t }
{
    let s = StoreRef {
        counts,
        blob,
        directory,
        kinds,
        words,
    };
    let accepted = s.check_edit(Edit::Append, array)?;
    let n = to_usize(counts.objects);
    // All of it fits, as the checks say.
    let _ = build_string_filewrapper_metadata(accepted.counts.objects, blob);
    put_entry(n, counts.words, accepted.len as u64, directory, kinds);
    array.put(words, to_usize(counts.words));
    Ok(accepted.counts)
}
