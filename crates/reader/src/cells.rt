// The cell store: check 13 for the directory of its cells, and checks 14 and 15 for one of them.
ghost use Rattle.std.specs.Prelude.{◌≡◌, ◌/◌, ◌<◌, length, IfOk};
ghost use Rattle.text.specs.Replies.{outcome};
ghost use Rattle.std.proofs.Props.{props};
ghost use Rattle.text.specs.Result.{ok, check_each, map_result};
ghost use Rattle.writer.specs.Spans.{offset_at, length_at};
ghost use Rattle.reader.specs.Cells.{lies_in, is_cell, check_directory, cell_at, cell_count, cell_of};

use text::convert::to_usize;
use text::error::MatError;

// The most values of a directory.
const MAX_DIRECTORY: usize = 699044;

// Whether len words from offset on begin at or after end, and lie in so many words.
#[tactic(auto, unfolding(crate::specs::Cells::lies_in))]
fn follows(end: usize, offset: usize, len: usize, words: usize) -> bool
    ensures { result ≡ lies_in end offset len words }
{
    if offset < end {
        return false;
    }
    if words < offset {
        return false;
    }
    len <= words - offset
}

// Check 13 for each pair: end is the end of the pair before.
fn check_cells(directory: &[u64], words: usize) -> Result<(), MatError>
    ensures { outcome result ≡ check_each 13 (is_cell directory.now words) 0 (cell_count directory.now) }
{
    let mut end: usize = 0;
    for (i, pair) in directory.as_chunks::<2>().0.iter().enumerate() {
        let offset = to_usize(pair[0]);
        let len = to_usize(pair[1]);
        if !follows(end, offset, len, words) {
            return Err(MatError::InvalidDirectory(i as u64));
        }
        end = offset + len;
    }
    Ok(())
}

// Check 13 for a directory of the cells of so many words.
#[tactic(auto, unfolding(crate::specs::Cells::check_directory))]
pub fn check_directory(directory: &[u64], kinds: &[u8], words: usize) -> Result<(), MatError>
    ensures { outcome result ≡ check_directory directory.now kinds.now words }
{
    let len = directory.len();
    if len % 2 != 0 {
        return Err(MatError::InvalidDirectory(len as u64));
    }
    if MAX_DIRECTORY < len {
        return Err(MatError::InvalidDirectory(len as u64));
    }
    if kinds.len() != len / 2 {
        return Err(MatError::InvalidDirectory(len as u64));
    }
    check_cells(directory, words)
}

// A cell store whose directory passed check 13.
// Directory and kinds stay two lists, the first of flat pairs, as document 01 has them and C lends them: it is read by pairs here.
// Kind 0 is a payload. The kinds stay bytes, as C lends them: any other number is some other cell.
#[derive(Clone, Copy)]
pub(crate) struct Cells<'a> {
    directory: &'a [u64],
    kinds: &'a [u8],
    words: &'a [u64],
    ghost checked: { check_directory directory.now kinds.now (length words.now) ≡ ok tt } by { Prim.hlevel props },
}

impl<'a> Cells<'a> {
    ghost use Rattle.reader.specs.Stages.Cells.{of_cells, ReadsCell};
    ghost use Rattle.reader.specs.declared.cells.Cells.{Cells};

    // Check 13.
    pub(crate) fn new(
        directory: &'a [u64],
        kinds: &'a [u8],
        words: &'a [u64],
    ) -> Result<Cells<'a>, MatError>
        ensures checked { map_result (λ (c : Cells). tt) (outcome result) ≡ check_directory directory.now kinds.now (length words.now) }
        ensures lent { IfOk result (λ (c : Cells). (c.directory.now ≡ directory.now) × (c.kinds.now ≡ kinds.now) × (c.words.now ≡ words.now)) }
    {
        check_directory(directory, kinds, words.len())?;
        Ok(Cells {
            directory,
            kinds,
            words,
        })
    }

    // The offset and the length of entry j. writer's Strings has such a call too, which asks that the pair is there, and so is not public.
    #[tactic(auto, using(writer::proofs::SpanLaws::pair_offset, writer::proofs::SpanLaws::pair_length))]
    fn span(self, j: usize) -> (usize, usize)
        requires { j < length self.directory.now / 2 }
        ensures { let d = self.entry.directory.now in
            (result.0 ≡ offset_at d j) × (result.1 ≡ length_at d j) }
    {
        let pair = self.directory.as_chunks::<2>().0[j];
        (to_usize(pair[0]), to_usize(pair[1]))
    }

    // The words of the cell of an entry of the directory: checks 14 and 15, with a place for both.
    #[tactic(auto, unfolding(crate::specs::Cells::cell_at))]
    pub(crate) fn cell_at(self, entry: u32, place: u32) -> Result<&'a [u64], MatError>
        ensures { ReadsCell (of_cells cell_at self.entry entry place) result }
    {
        let j = entry as usize;
        if self.directory.len() / 2 <= j {
            return Err(MatError::CellNotFound(u64::from(place)));
        }
        if self.kinds[j] != 0 {
            return Err(MatError::UnexpectedCellKind(u64::from(place)));
        }
        let (start, len) = self.span(j);
        let end = start + len;
        Ok(&self.words[start..end])
    }

    // The cell that an id leads to.
    #[tactic(auto, unfolding(crate::specs::Cells::cell_of))]
    pub(crate) fn cell_of(self, id: u32) -> Result<&'a [u64], MatError>
        ensures { ReadsCell (of_cells cell_of self.entry id) result }
    {
        if id == 0 {
            return Err(MatError::CellNotFound(0));
        }
        self.cell_at(id - 1, id)
    }
}
