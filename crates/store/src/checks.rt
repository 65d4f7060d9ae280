// All checks of an edit.
ghost use Rattle.std.specs.Prelude.{◌≡◌, ◌≤◌, ◌*◌, ◌+◌};
ghost use Rattle.text.specs.Replies.{outcome};
ghost use Rattle.text.specs.Result.{check_output};
ghost use Rattle.store.specs.Edits.{check_room};
ghost use Rattle.store.specs.Store.{lengths_of};
ghost use Rattle.store.specs.Stages.{store_in, StoreChecked, check_id, IdInside, counts_after, Decides};

use crate::array::StringArray;
use crate::canonical::StoreRef;
use crate::counts::Counts;
use crate::edits::Edit;
use text::convert::to_usize;
use text::error::MatError;
use writer::string_object::MAX_OBJECTS;

// An edit whose checks passed: the words of its payload, and the counts of the store after it.
#[derive(Clone, Copy)]
pub(crate) struct Accepted {
    pub(crate) len: usize,
    pub(crate) counts: Counts,
}

// Check 34 of one buffer.
fn check_output(need: u64, room: usize) -> Result<(), MatError>
    ensures { outcome result ≡ check_output need room }
{
    if (room as u64) < need {
        return Err(MatError::OutputTooShort(need));
    }
    Ok(())
}

impl StoreRef<'_> {
    // Check 8.
    fn check_id(self, edit: Edit) -> Result<(), MatError>
        ensures { outcome result ≡ check_id self.entry.counts.objects edit }
    {
        if let Edit::Replace(id) = edit {
            if id < 1 {
                return Err(MatError::ObjectIdOutOfRange(id));
            }
            if self.counts.objects < id {
                return Err(MatError::ObjectIdOutOfRange(id));
            }
        }
        Ok(())
    }

    // The counts after an edit whose payload has len words.
    fn counts_after(self, edit: Edit, len: usize) -> Counts
        requires store { StoreChecked (store_in self) }
        requires id { IdInside self.counts.objects edit }
        requires most { len ≤ 2097152 }
        ensures { result ≡ counts_after (store_in self.entry) edit len }
    {
        match edit {
            Edit::Append => Counts::of(self.counts.objects + 1, self.counts.words + len as u64),
            Edit::Replace(id) => {
                let old = self.directory[2 * to_usize(id - 1) + 1];
                Counts::of(self.counts.objects, self.counts.words - old + len as u64)
            }
        }
    }

    // Check 34 for counts.
    fn check_room(self, counts: Counts) -> Result<(), MatError>
        requires few { counts.objects ≤ 349522 }
        requires bytes { counts.blob_bytes ≡ 144 + 48 * counts.objects }
        ensures { outcome result ≡ check_room (lengths_of (store_in self.entry)) counts.objects counts.words }
    {
        check_output(counts.blob_bytes, self.blob.len())?;
        check_output(2 * counts.objects, self.directory.len())?;
        check_output(counts.objects, self.kinds.len())?;
        check_output(counts.words, self.words.len())
    }

    // All checks of an edit.
    pub(crate) fn check_edit(self, edit: Edit, array: StringArray<'_>) -> Result<Accepted, MatError>
        ensures { Decides (store_in self.entry) edit array.entry result }
    {
        self.check()?;
        self.check_id(edit)?;
        let len = array.measure()?;
        let counts = self.counts_after(edit, len);
        if MAX_OBJECTS < counts.objects {
            return Err(MatError::LimitExceeded(counts.objects));
        }
        self.check_room(counts)?;
        Ok(Accepted { len, counts })
    }
}
