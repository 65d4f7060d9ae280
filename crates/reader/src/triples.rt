// The triples of an object that have passed their checks.
ghost use Rattle.std.specs.Prelude.{◌≡◌, ◌+◌, ◌*◌, ◌<◌};
ghost use Rattle.reader.specs.Stages.Triples.{PassedTriples};
ghost use Rattle.reader.specs.Wire.{triple_at};

use crate::file_wrapper::Metadata;
use crate::records::Triple;

// The triples of an object of an opened blob: the byte of the first, and their number.
// Bytes are named by their place, as in records.rt, and no slice of them is held: the names that they lead to lie elsewhere in the blob.
#[derive(Clone, Copy)]
pub(crate) struct Triples<'a> {
    pub(crate) metadata: Metadata<'a>,
    pub(crate) at: usize,
    pub(crate) count: usize,
    ghost passed: { PassedTriples metadata.blob.now metadata.w at count },
}

impl<'a> Triples<'a> {
    pub(crate) fn get(self, k: usize) -> Triple
        requires { k < self.count }
        ensures { result ≡ triple_at self.entry.metadata.blob.now (self.entry.at + 12 * k) }
    {
        Triple::read(self.metadata.blob, self.at + Triple::SIZE * k)
    }
}
