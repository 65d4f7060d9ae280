// The metadata blob for string objects: its words, and writing them.
ghost use Rattle.std.specs.Prelude.{◌≡◌, ◌+◌, ◌*◌, ◌≤◌, ◌<◌, length};
ghost use Rattle.text.specs.Buffer.{put};
ghost use Rattle.writer.specs.FileWrapper.{SavedBlocks, Objects, u32s, entry, file_wrapper};

use crate::string_object::{BLOB_BASE, BLOB_STEP, MAX_OBJECTS};
use text::convert::to_usize;
use text::error::MatError;

// The version word of a metadata blob.
pub const FILEWRAPPER_VERSION: u32 = 4;

// The saved block of object i, from 0: a triple with name 1 and heap value i.
pub(crate) fn saved_block(i: u32) -> [u32; 4]
    ensures { result ≡ entry SavedBlocks i }
{
    [1, 1, 1, i]
}

// The record of object i, from 0: class 1, saved id and dependency id i + 1.
pub(crate) fn object_record(i: u32) -> [u32; 6]
    requires { i < 349522 }
    ensures { result ≡ entry Objects i }
{
    [1, 0, 0, i + 1, 0, i + 1]
}

// Writes words into blob from byte at on. No part of blob: what a call promises of a part would be turned into what it is of the blob at each
// of the four calls, where the layout goes by the byte in all of it.
fn put_words(blob: &mut [u8], at: usize, words: &[u32])
    requires { at + 4 * length words.now ≤ length blob.old }
    ensures { blob.new ≡ put blob.old at (u32s words.now) }
{
    for (i, word) in words.iter().enumerate() {
        let next = at + 4 * i;
        blob[next..next + 4].copy_from_slice(&word.to_le_bytes());
    }
}

// A number of objects that passed check 32.
#[derive(Clone, Copy)]
pub(crate) struct ObjectCount {
    pub(crate) n: u32,
    ghost few: { n ≤ 349522 },
}

impl ObjectCount {
    ghost use Rattle.writer.specs.Stages.FileWrapper.{file_head, CountsObjects};

    // Check 32.
    pub(crate) fn new(n: u64) -> Result<ObjectCount, MatError>
        ensures { CountsObjects n result }
    {
        if MAX_OBJECTS < n {
            return Err(MatError::LimitExceeded(n));
        }
        Ok(ObjectCount { n: n as u32 })
    }

    // The bytes of the blob.
    pub(crate) fn blob_size(self) -> usize
        ensures size { result ≡ 144 + 48 * self.n }
        ensures blob { result ≡ length (file_wrapper self.n) }
    {
        to_usize(BLOB_BASE + BLOB_STEP * u64::from(self.n))
    }

    // The words before the entries. Those of the name heap are its bytes, four at a time.
    #[tactic(auto, using(crate::proofs::FileWrapperLaws::head_is))]
    pub(crate) fn head_words(self) -> [u32; 24]
        ensures { u32s result ≡ file_head self.n }
    {
        [
            FILEWRAPPER_VERSION,
            2,
            // The offsets.
            56,
            88,
            96 + 16 * self.n,
            120 + 40 * self.n,
            128 + 40 * self.n,
            136 + 48 * self.n,
            136 + 48 * self.n,
            144 + 48 * self.n,
            // The name heap: any, string.
            0x00796E61,
            0x69727473,
            0x0000676E,
            0,
            // The classes, and block 0.
            0,
            0,
            0,
            0,
            0,
            2,
            0,
            0,
            0,
            0,
        ]
    }

    // Writes the blob where it fits.
    pub(crate) fn put_file_wrapper(self, blob: &mut [u8])
        requires { 144 + 48 * self.n ≤ length blob.old }
        ensures { blob.new ≡ put blob.old 0 (file_wrapper self.n) }
    {
        let n = self.n as usize;
        put_words(blob, 0, &self.head_words());
        for i in 0..n {
            put_words(blob, 96 + 16 * i, &saved_block(i as u32));
        }
        // Record 0.
        put_words(blob, 96 + 16 * n, &[0; 6]);
        for i in 0..n {
            put_words(blob, 120 + 16 * n + 24 * i, &object_record(i as u32));
        }
        // The normal block 0, and the blocks of dependents, which have none.
        blob[120 + 40 * n..144 + 48 * n].fill(0);
    }
}
