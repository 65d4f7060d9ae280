// Whether bytes are the metadata blob for string objects: compared where they lie, with nothing written.
ghost use Rattle.std.specs.Prelude.{◌≡◌, ◌+◌, ◌*◌, ◌≤◌, length, replicate};
ghost use Rattle.text.specs.Buffer.{same};
ghost use Rattle.writer.specs.FileWrapper.{SavedBlocks, Objects, u32s, entries_from, file_wrapper};
ghost use Rattle.writer.specs.Stages.Compare.{stands_at};

use crate::file_wrapper::{ObjectCount, object_record, saved_block};

// Whether blob has words from byte at on, as put_words has it.
fn has_words(blob: &[u8], at: usize, words: &[u32]) -> bool
    requires { at + 4 * length words.now ≤ length blob.now }
    ensures { result ≡ stands_at blob.now at (u32s words.now) }
{
    for (i, word) in words.iter().enumerate() {
        let next = at + 4 * i;
        let bytes = [blob[next], blob[next + 1], blob[next + 2], blob[next + 3]];
        if u32::from_le_bytes(bytes) != *word {
            return false;
        }
    }
    true
}

// Whether bytes are all zero. A turn only keeps the larger of two, which the compiler does for many of them together.
fn is_zeros(bytes: &[u8]) -> bool
    ensures { result ≡ same bytes.now (replicate (length bytes.now) 0) }
{
    bytes.iter().fold(0, |high: u8, byte| high.max(*byte)) == 0
}

impl ObjectCount {
    // Whether the saved blocks of the objects stand in a blob.
    fn has_saved_blocks(self, blob: &[u8]) -> bool
        requires { length blob.now ≡ 144 + 48 * self.n }
        ensures { result ≡ stands_at blob.now 96 (entries_from SavedBlocks 0 self.n) }
    {
        (0..self.n as usize).all(|i| has_words(blob, 96 + 16 * i, &saved_block(i as u32)))
    }

    // Whether their records do.
    fn has_records(self, blob: &[u8]) -> bool
        requires { length blob.now ≡ 144 + 48 * self.n }
        ensures { let n = self.n in result ≡ stands_at blob.now (120 + 16 * n) (entries_from Objects 0 n) }
    {
        let n = self.n as usize;
        (0..n).all(|i| has_words(blob, 120 + 16 * n + 24 * i, &object_record(i as u32)))
    }

    // Whether bytes are the blob. The parts are those that `put_file_wrapper` writes: one walk for both is no plainer, for it takes a
    // trait, a struct for each side, one of them with a `&mut`, and a stop that only comparing needs.
    #[tactic(auto, using(crate::proofs::compare::Laws::standing))]
    pub(crate) fn has_file_wrapper(self, blob: &[u8]) -> bool
        ensures { result ≡ same blob.now (file_wrapper self.n) }
    {
        if blob.len() != self.blob_size() {
            return false;
        }
        let n = self.n as usize;
        if !has_words(blob, 0, &self.head_words()) {
            return false;
        }
        if !self.has_saved_blocks(blob) {
            return false;
        }
        if !has_words(blob, 96 + 16 * n, &[0; 6]) {
            return false;
        }
        if !self.has_records(blob) {
            return false;
        }
        is_zeros(&blob[120 + 40 * n..])
    }
}
