// Property blocks: a count and that many entries of one size, then a step up to a multiple of 8 from the blob's start.
ghost use Rattle.std.specs.Prelude.{◌≡◌, ◌+◌, ◌-◌, ◌*◌, ◌/◌, ◌≤◌, length};
ghost use Rattle.text.specs.Replies.{outcome};
ghost use Rattle.reader.specs.Blocks.{block_end, block_at, blocks};
ghost use Rattle.reader.specs.Stages.Blocks.{HasBlock, IsRegion};

use crate::records::read_u32;
use text::error::MatError;

// The end of the block at a byte.
fn block_end(blob: &[u8], at: usize, size: usize) -> usize
    requires { (at + 4 ≤ length blob.now) × (length blob.now ≤ 16777216) × (size ≤ 12) }
    ensures { result ≡ block_end size blob.now at }
{
    at + 4 + size * read_u32(blob, at) as usize
}

// Where a block that ends there is followed by the next.
fn round_up(end: usize) -> usize
    requires { end ≤ 16777216 }
    ensures { result ≡ (end + 7) / 8 * 8 }
{
    end.next_multiple_of(8)
}

// The number of blocks of the region from byte start up to byte end: check 7, whose place is the byte of the first count whose entries
// leave the region.
// A `while`, since a block tells itself where the next begins. The blob with two bounds, and no part of it: check 7 tells a byte of the
// blob, and the step up is counted from the blob's start.
pub(crate) fn count_blocks(
    blob: &[u8],
    start: usize,
    end: usize,
    size: usize,
) -> Result<usize, MatError>
    requires { IsRegion blob.now start end size }
    ensures { outcome result ≡ blocks size blob.now start end }
{
    let mut n: usize = 0;
    let mut at = start;
    while 4 <= end.saturating_sub(at) {
        let last = block_end(blob, at, size);
        if end < last {
            return Err(MatError::PropertyBlockTruncated(at as u64));
        }
        at = round_up(last);
        n += 1;
    }
    Ok(n)
}

// The byte of the block that lies n blocks after the one at a byte.
pub(crate) fn block_after(blob: &[u8], at: usize, n: usize, size: usize) -> usize
    requires { HasBlock size blob.now at n }
    ensures { result ≡ block_at size blob.now at n }
{
    let mut i = at;
    for _ in 0..n {
        i = round_up(block_end(blob, i, size));
    }
    i
}
