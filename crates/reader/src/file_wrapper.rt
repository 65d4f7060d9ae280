// The metadata blob: checks 1 to 7, and what later queries need of its layout.
ghost use Rattle.std.specs.Prelude.{◌≡◌, ◌≤◌, ◌<◌, length, IfOk};
ghost use Rattle.text.specs.Replies.{outcome};
ghost use Rattle.text.specs.Result.{check_each, map_result};
ghost use Rattle.reader.specs.Opening.{offset, offsets, is_within, is_ordered, check_regions, empty_wrapper, opened};
ghost use Rattle.reader.specs.Stages.Opening.{Ordered, Opens};

use crate::blocks::count_blocks;
use crate::names::count_pieces;
use crate::records::{ClassEntry, ObjectRecord, Triple, read_u32};
use text::error::MatError;

// The most bytes of a blob, and the length of its header.
pub const MAX_BLOB: usize = 16777216;

pub(crate) const HEADER: usize = 40;

// An opened blob: the declared names, the whole class entries and object records, the blocks of the two property regions, the offsets.
#[derive(Clone, Copy, Debug, Default, PartialEq, Eq)]
pub struct FileWrapper {
    pub names: u32,
    pub classes: usize,
    pub records: usize,
    pub saveobj_blocks: usize,
    pub normalobj_blocks: usize,
    pub offsets: [usize; 8],
}

// A blob that is long enough for its header.
#[derive(Clone, Copy)]
struct Header<'a> {
    blob: &'a [u8],
    ghost fits: { 40 ≤ length blob.now },
}

impl<'a> Header<'a> {
    // Region offset k.
    fn read_offset(self, k: usize) -> usize
        requires { k < 8 }
        ensures { result ≡ offset self.entry.blob.now k }
    {
        read_u32(self.blob, 8 + 4 * k) as usize
    }

    // Check 3. This and check 5 go by index, which is their place: a pair of `windows` is told by the index of its first. They differ in range,
    // test and kind, all that a common function would be left with.
    fn check_within(self) -> Result<(), MatError>
        ensures { outcome result ≡ check_each 3 (is_within self.entry.blob.now) 0 8 }
    {
        for k in 0..8 {
            if self.blob.len() < self.read_offset(k) {
                return Err(MatError::OffsetOutOfBounds(k as u64));
            }
        }
        Ok(())
    }

    // Check 5.
    fn check_order(self) -> Result<(), MatError>
        ensures { outcome result ≡ check_each 5 (is_ordered self.entry.blob.now) 1 8 }
    {
        for k in 1..8 {
            if self.read_offset(k) < self.read_offset(k - 1) {
                return Err(MatError::OffsetsDescending(k as u64));
            }
        }
        Ok(())
    }

    fn read_offsets(self) -> [usize; 8]
        ensures { result ≡ offsets self.entry.blob.now }
    {
        std::array::from_fn(|k| self.read_offset(k))
    }
}

// What a blob of length 0 opens as: it has no header.
pub(crate) fn empty_wrapper() -> FileWrapper
    ensures { result ≡ empty_wrapper }
{
    FileWrapper::default()
}

// A blob that is too short for a header: an empty one opens with no names, classes or objects, any other fails check 2.
#[tactic(auto, unfolding(crate::specs::Opening::opened))]
fn parse_short(blob: &[u8]) -> Result<FileWrapper, MatError>
    requires { length blob.now < 40 }
    ensures { outcome result ≡ opened blob.now }
{
    if blob.is_empty() {
        return Ok(empty_wrapper());
    }
    Err(MatError::BlobTooShort(blob.len() as u64))
}

impl FileWrapper {
    // Opens a blob: checks 1 to 7.
    pub fn parse(blob: &[u8]) -> Result<FileWrapper, MatError>
        ensures { outcome result ≡ opened blob.now }
    {
        if MAX_BLOB < blob.len() {
            return Err(MatError::BlobTooLong(blob.len() as u64));
        }
        if blob.len() < HEADER {
            return parse_short(blob);
        }
        let header = Header { blob };
        header.check_within()?;
        let o = header.read_offsets();
        if o[0] < HEADER {
            return Err(MatError::NameHeapTooEarly(0));
        }
        header.check_order()?;
        parse_regions(blob, o)
    }
}

// An opened blob with its wrapper.
#[derive(Clone, Copy)]
pub(crate) struct Metadata<'a> {
    pub(crate) blob: &'a [u8],
    pub(crate) w: FileWrapper,
    ghost opens: { Opens blob.now w },
}

impl<'a> Metadata<'a> {
    // Opens a blob: checks 1 to 7.
    pub(crate) fn open(blob: &'a [u8]) -> Result<Metadata<'a>, MatError>
        ensures { (map_result (λ m. m.w) (outcome result) ≡ opened blob.now) × IfOk result (λ m. m.blob.now ≡ blob.now) }
    {
        let w = FileWrapper::parse(blob)?;
        Ok(Metadata { blob, w })
    }
}

// Checks 6 and 7, once the offsets are right.
fn parse_regions(blob: &[u8], offsets: [usize; 8]) -> Result<FileWrapper, MatError>
    requires { Ordered blob.now offsets }
    ensures { outcome result ≡ check_regions blob.now }
{
    let names = read_u32(blob, 4);
    let pieces = count_pieces(&blob[HEADER..offsets[0]]);
    if pieces < names as usize {
        return Err(MatError::TooFewNames(pieces as u64));
    }
    let saveobj_blocks = count_blocks(blob, offsets[1], offsets[2], Triple::SIZE)?;
    let normalobj_blocks = count_blocks(blob, offsets[3], offsets[4], Triple::SIZE)?;
    Ok(FileWrapper {
        names,
        classes: (offsets[1] - offsets[0]) / ClassEntry::SIZE,
        records: (offsets[3] - offsets[2]) / ObjectRecord::SIZE,
        saveobj_blocks,
        normalobj_blocks,
        offsets,
    })
}
