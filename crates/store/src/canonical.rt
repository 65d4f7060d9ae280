// Checks 13 and 33 of an edit.
ghost use Rattle.std.specs.Prelude.{◌≡◌, eqb, length};
ghost use Rattle.std.specs.List.{list_all};
ghost use Rattle.text.specs.Replies.{outcome};
ghost use Rattle.store.specs.Edits.{check_counted, check_store};
ghost use Rattle.store.specs.Store.{is_canonical};
ghost use Rattle.store.specs.Stages.{store_in, CellsInside, cells_walk, IsCut, CutChecked, CutTo};

use crate::counts::Counts;
use reader::cells::check_directory;
use reader::saveobj::is_canonical_payload;
use text::convert::to_usize;
use text::error::MatError;
use writer::string_object::is_string_filewrapper_metadata;

// A store that is only read.
// The directory is flat pairs, as document 01 has it and C lends it. It is read by index: with as_chunks in are_cells_canonical, five goals of
// the walk stayed open, which the check closes by itself for an index. Where it is written, append and replace say why.
#[derive(Clone, Copy)]
pub(crate) struct StoreRef<'a> {
    pub(crate) counts: Counts,
    pub(crate) blob: &'a [u8],
    pub(crate) directory: &'a [u64],
    pub(crate) kinds: &'a [u8],
    pub(crate) words: &'a [u64],
}

// Whether every kind is 0.
fn are_zero(kinds: &[u8]) -> bool
    ensures { result ≡ list_all (λ kind. eqb kind 0) kinds.now }
{
    kinds.iter().all(|kind| *kind == 0)
}

impl<'a> StoreRef<'a> {
    // The counted part, or none where a count goes past its buffer.
    fn counted(self) -> Option<StoreRef<'a>>
        ensures { CutTo (store_in self.entry) result }
    {
        let pairs = self.counts.objects.checked_mul(2)?;
        Some(StoreRef {
            counts: self.counts,
            blob: self.blob.get(..to_usize(self.counts.blob_bytes))?,
            directory: self.directory.get(..to_usize(pairs))?,
            kinds: self.kinds.get(..to_usize(self.counts.objects))?,
            words: self.words.get(..to_usize(self.counts.words))?,
        })
    }

    // Whether the cells lie end to end in all of the words, each a canonical payload.
    #[tactic(auto, using(crate::proofs::CheckLaws::walking))]
    fn are_cells_canonical(self) -> bool
        requires { CellsInside self.directory.now (length self.words.now) self.counts.objects }
        ensures { let s = store_in self.entry in result ≡ cells_walk s.directory s.words 0 s.objects 0 }
    {
        let mut end: usize = 0;
        for i in 0..to_usize(self.counts.objects) {
            let start = to_usize(self.directory[2 * i]);
            if start != end {
                return false;
            }
            end = start + to_usize(self.directory[2 * i + 1]);
            if !is_canonical_payload(&self.words[start..end]) {
                return false;
            }
        }
        end == self.words.len()
    }

    // Check 33 of a store that is cut to its counts, once 13 holds.
    fn is_canonical(self) -> bool
        requires { CutChecked (store_in self) }
        ensures { result ≡ is_canonical (store_in self.entry) }
    {
        is_string_filewrapper_metadata(self.counts.objects, self.blob)
            && are_zero(self.kinds)
            && self.are_cells_canonical()
    }

    // Checks 13 and 33 of a store that is cut to its counts.
    fn check_counted(self) -> Result<(), MatError>
        requires { IsCut (store_in self) }
        ensures { outcome result ≡ check_counted (store_in self.entry) }
    {
        check_directory(self.directory, self.kinds, self.words.len())?;
        if !self.is_canonical() {
            return Err(MatError::NotCanonical(0));
        }
        Ok(())
    }

    // Checks 13 and 33.
    pub(crate) fn check(self) -> Result<(), MatError>
        ensures { outcome result ≡ check_store (store_in self.entry) }
    {
        let Some(counted) = self.counted() else {
            return Err(MatError::InvalidDirectory(self.counts.objects));
        };
        counted.check_counted()
    }
}
