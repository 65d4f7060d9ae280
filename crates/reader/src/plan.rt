// How the blocks of an opened blob are indexed, for the listing of its objects.
ghost use Rattle.std.specs.Prelude.{◌≡◌, ◌+◌, ◌*◌, ◌≤◌, ◌<◌};
ghost use Rattle.reader.specs.Stages.Plan.{FitsIndex};

use crate::file_wrapper::Metadata;

// The entries of the index of blocks, which serves both regions.
// One array for the two: memory is fixed, and either region can have nearly all of the blocks.
pub(crate) const ENTRIES: usize = 8192;

// An opened blob, and how its blocks are indexed: every stride-th block of a region has its byte in the index, those of the saved region
// from entry 0 on, those of the normal one from entry normalobj on.
#[derive(Clone, Copy)]
pub(crate) struct Plan<'a> {
    pub(crate) metadata: Metadata<'a>,
    pub(crate) stride: usize,
    pub(crate) normalobj: usize,
    ghost fits: { FitsIndex metadata.w stride normalobj },
}

// As few blocks between two entries as the index has room for. Where block ids do not fall, each is found from the one before it: one
// entry is enough for a region, and filling the index walks no block.
fn stride_for(blocks: usize, falls: bool) -> usize
    requires { blocks ≤ 16777216 }
    ensures { (blocks < 8190 * result) × (result ≤ blocks + 1) }
{
    if falls {
        blocks / (ENTRIES - 2) + 1
    } else {
        blocks + 1
    }
}

impl<'a> Metadata<'a> {
    pub(crate) fn plan(self, falls: bool) -> Plan<'a>
        ensures { result.metadata ≡ self.entry }
    {
        let w = self.w;
        let stride = stride_for(w.saveobj_blocks + w.normalobj_blocks, falls);
        Plan {
            metadata: self,
            stride,
            normalobj: w.saveobj_blocks / stride + 1,
        }
    }
}
