// Replacing an array of a store: all checks, then the writing.
ghost use Rattle.std.specs.Prelude.{◌≡◌, ◌+◌, ◌-◌, ◌*◌, length, set};
ghost use Rattle.std.specs.Result.{result_unwrap_or};
ghost use Rattle.store.specs.Edits.{replaced};
ghost use Rattle.store.specs.Moves.{shifted, Shiftable};
ghost use Rattle.store.specs.Replies.{store_with, Edits};
ghost use Rattle.store.specs.Stages.{WordsFit, ReplacesWords, PairFits};

use crate::array::StringArray;
use crate::canonical::StoreRef;
use crate::counts::Counts;
use crate::edits::Edit;
use text::convert::to_usize;
use text::error::MatError;

// Puts the payload of an array, of len words, in place of the old words from at on: moves the words after them, and clears those given up.
// No parts of words: what lies up to used moves across at, and past used where the payload is longer than the old one.
fn replace_words(
    used: usize,
    at: usize,
    old: usize,
    len: usize,
    words: &mut [u64],
    array: StringArray<'_>,
)
    requires { WordsFit used at old len (length words.old) array }
    ensures { ReplacesWords used at old words.old array.entry words.new }
{
    let total = used - old + len;
    words.copy_within(at + old..used, at + len);
    array.put(words, at);
    words[total..total.max(used)].fill(0);
}

// Adds new - old to the offset of each pair from first up to n. The cells stand end to end, so those after one whose length was old and
// becomes new begin that much later or earlier.
// By index, since what as_chunks_mut lends is known by its length alone afterwards. By first and n, and no part: what is promised, `shifted`,
// goes by the index of a pair in the whole directory, and so in replace_pair.
#[tactic(auto, using(crate::proofs::ShiftLaws::shifting))]
fn shift_offsets(directory: &mut [u64], first: usize, n: usize, old: u64, new: u64)
    requires { Shiftable directory.old first n old new }
    ensures { directory.new ≡ shifted directory.old first (n - first) old new }
{
    for i in first..n {
        directory[2 * i] = directory[2 * i] - old + new;
    }
}

// Gives pair k its new length, and shifts the offsets of the pairs after it, up to n.
fn replace_pair(directory: &mut [u64], n: usize, k: usize, old: u64, len: u64)
    requires { PairFits directory.old n k old len }
    ensures { directory.new ≡ shifted (set directory.old (2 * k + 1) len) (k + 1) (n - (k + 1)) old len }
{
    directory[2 * k + 1] = len;
    shift_offsets(directory, k + 1, n, old, len);
}

// Puts an array in place of that of an object, and answers the counts after it; a refusal leaves them. The blob and the kinds are lent to
// be read, as C lends them; append_at has the same checks and writes to all four.
pub fn replace_at(
    counts: Counts,
    blob: &[u8],
    directory: &mut [u64],
    kinds: &[u8],
    words: &mut [u64],
    object_id: u64,
    array: StringArray<'_>,
) -> Result<Counts, MatError>
    ensures { let s = store_with counts blob.now directory.old kinds.now words.old in
        let t = store_with (result_unwrap_or result counts) blob.now directory.new kinds.now words.new in
        let a = array.entry in
        Edits s (replaced s object_id a.dims.now a.text.now a.spans.now) result t }
{
    let s = StoreRef {
        counts,
        blob,
        directory,
        kinds,
        words,
    };
    let accepted = s.check_edit(Edit::Replace(object_id), array)?;
    let k = to_usize(object_id - 1);
    let at = to_usize(directory[2 * k]);
    let old = directory[2 * k + 1];
    replace_words(
        to_usize(counts.words),
        at,
        to_usize(old),
        accepted.len,
        words,
        array,
    );
    replace_pair(
        directory,
        to_usize(counts.objects),
        k,
        old,
        accepted.len as u64,
    );
    Ok(accepted.counts)
}
