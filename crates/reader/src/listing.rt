// The listing of a blob's objects.
ghost use Rattle.std.specs.Prelude.{◌≡◌, ◌-◌, ◌≤◌, ◌<◌, length};
ghost use Rattle.reader.specs.Stages.Blocks.{HasBlock};
ghost use Rattle.reader.specs.Stages.Listing.{ChecksObjects, Indexes, first_entry, Fills, with_cursor, first_cursors, cursor_from, cursor_at, EntryInside, Nearest, ToBlock, ListingFor, ToNext, NextObject};
ghost use Rattle.reader.specs.Objects.{region_start, blank_rows};
ghost use Rattle.reader.specs.Stages.Objects.{number_of};
ghost use Rattle.reader.specs.Replies.{WritesObjects};

use crate::blocks::block_after;
use crate::file_wrapper::{FileWrapper, Metadata};
use crate::objects::{
    BlockId, Object, ObjectRow, Region, block_of, check_block, object_row, region_blocks,
    region_start,
};
use crate::plan::{ENTRIES, Plan};
use crate::records::{Triple, read_u32};
use text::error::MatError;

// The block ids that were met last in each region, and whether one was below the one before it.
// One walk checks each object and gathers this: is_sorted would take a walk more for each region.
// Two fields by name: an array by Region takes 1.04 times the instructions of a listing.
#[derive(Clone, Copy, Debug, Default, PartialEq, Eq)]
struct Order {
    saveobj: u32,
    normalobj: u32,
    falls: bool,
}

fn met(order: Order, block: BlockId) -> Order {
    if block.id == 0 {
        return order;
    }
    match block.region {
        Region::Saved => Order {
            saveobj: block.id,
            falls: order.falls | (block.id < order.saveobj),
            ..order
        },
        Region::Normal => Order {
            normalobj: block.id,
            falls: order.falls | (block.id < order.normalobj),
            ..order
        },
    }
}

// Check 10 for each object, which looks at no block.
#[tactic(auto, unfolding(crate::specs::Objects::objects_from, crate::specs::Objects::record_row))]
fn check_objects(metadata: Metadata) -> Result<bool, MatError>
    ensures { ChecksObjects metadata.entry.blob.now metadata.entry.w result }
{
    let mut order = Order::default();
    for i in 1..metadata.w.records {
        let id = i as u32;
        let object = Object { metadata, id }.record();
        check_block(metadata.w, object)?;
        order = met(order, block_of(object));
    }
    Ok(order.falls)
}

// The entry of a region's first block. No array by Region: the plan has a field for the one that is not 0.
fn first_entry(plan: Plan, region: Region) -> usize
    ensures { result ≡ first_entry plan.entry region }
{
    match region {
        Region::Saved => 0,
        Region::Normal => plan.normalobj,
    }
}

// A block of a region by its number, and the byte of its count.
// Numbers and no slice: records name a block by its number, and an entry of the index is a byte.
#[derive(Clone, Copy, Debug, PartialEq, Eq)]
pub(crate) struct Cursor {
    pub(crate) block: usize,
    pub(crate) at: usize,
}

// The cursor at a block that is not before the given one.
fn seek(blob: &[u8], from: Cursor, block: usize) -> Cursor
    requires { (from.block ≤ block) × HasBlock 12 blob.now from.at (block - from.block) }
    ensures { (result ≡ cursor_from blob.now from block) × (result.at ≤ 16777216) }
{
    let at = block_after(blob, from.at, block - from.block, Triple::SIZE);
    Cursor { block, at }
}

// Fills the entries of a region.
#[tactic(auto, unfolding(crate::specs::Blocks::block_at))]
fn fill_region(plan: Plan, region: Region, index: &mut [u32; ENTRIES])
    requires { length index.old ≡ 8192 }
    ensures { Fills plan.entry region index.old index.new }
{
    let w = plan.metadata.w;
    let start = region_start(w, region);
    let blocks = region_blocks(w, region);
    let first = first_entry(plan, region);
    let mut cursor = Cursor {
        block: 0,
        at: start,
    };
    for j in 0..blocks.div_ceil(plan.stride) {
        cursor = seek(plan.metadata.blob, cursor, j * plan.stride);
        index[first + j] = cursor.at as u32;
    }
}

// Where the walk of each property region stands, by Region: at the start of both.
fn first_cursors(w: FileWrapper) -> [Cursor; 2]
    ensures { result ≡ first_cursors w }
{
    [w.offsets[1], w.offsets[3]].map(|at| Cursor { block: 0, at })
}

fn with_cursor(mut cursors: [Cursor; 2], region: Region, cursor: Cursor) -> [Cursor; 2]
    ensures { result ≡ with_cursor cursors region cursor }
{
    cursors[region as usize] = cursor;
    cursors
}

// The objects of a blob, of which a listing is made.
#[derive(Clone, Copy)]
pub(crate) struct Listing<'a> {
    pub(crate) plan: Plan<'a>,
    pub(crate) count: usize,
}

// The listing for so many rows: all checks.
#[tactic(auto, unfolding(crate::specs::Objects::object_rows, crate::specs::Objects::objects_from))]
fn start_listing<'a>(blob: &'a [u8], room: usize) -> Result<Listing<'a>, MatError>
    ensures { ListingFor blob.now room result }
{
    let metadata = Metadata::open(blob)?;
    let falls = check_objects(metadata)?;
    // the blob's records without the first
    let count = metadata.w.records.saturating_sub(1);
    if room < count {
        return Err(MatError::OutputTooShort(count as u64));
    }
    Ok(Listing {
        plan: metadata.plan(falls),
        count,
    })
}

// The index of a listing's blocks.
fn index_blocks(plan: Plan) -> [u32; ENTRIES]
    ensures { Indexes plan.entry result }
{
    let mut index = [0; ENTRIES];
    fill_region(plan, Region::Saved, &mut index);
    fill_region(plan, Region::Normal, &mut index);
    index
}

// An object that was read, and where the walks of both regions stand then.
#[derive(Clone, Copy, Debug, PartialEq, Eq)]
pub(crate) struct Step {
    pub(crate) row: ObjectRow,
    pub(crate) cursors: [Cursor; 2],
}

// The blocks of a blob with their index, which is filled. The entries are lent: they are 32 KB.
#[derive(Clone, Copy)]
pub(crate) struct BlockIndex<'a> {
    plan: Plan<'a>,
    entries: &'a [u32; ENTRIES],
    ghost filled: { Indexes plan entries.now },
}

impl<'a> BlockIndex<'a> {
    // Where the walk to a block sets out, at most a stride before it: the region's cursor, or the last entry that is not past the block.
    #[tactic(auto, unfolding(crate::specs::Stages::Listing::index_entry))]
    fn nearest(self, cursors: [Cursor; 2], block: BlockId) -> Cursor
        requires { EntryInside self.plan block }
        ensures { Nearest self.entry.entries.now self.entry.plan cursors block result }
    {
        let cursor = cursors[block.region as usize];
        let id = block.id as usize;
        if cursor.block <= id && id - cursor.block < self.plan.stride {
            return cursor;
        }
        let entry = first_entry(self.plan, block.region) + id / self.plan.stride;
        Cursor {
            block: id - id % self.plan.stride,
            at: self.entries[entry] as usize,
        }
    }

    // The cursor at a property block that its region has.
    fn seek_block(self, cursors: [Cursor; 2], block: BlockId) -> Cursor
        requires { ToBlock self.plan.metadata cursors block }
        ensures { let m = self.entry.plan.metadata in
            result ≡ cursor_at m.blob.now (region_start m.w (number_of block.region)) block.id }
    {
        let from = self.nearest(cursors, block);
        seek(self.plan.metadata.blob, from, block.id as usize)
    }

    // Object i, counted from 0. A read cannot fail: the checks of all objects hold.
    fn next_object(self, cursors: [Cursor; 2], i: usize) -> Step
        requires { ToNext self.plan.metadata cursors i }
        ensures { NextObject self.entry.plan.metadata i result }
    {
        let metadata = self.plan.metadata;
        let id = i as u32 + 1;
        let object = Object { metadata, id }.record();
        let block = block_of(object);
        if block.id == 0 {
            return Step {
                row: object_row(object, block, 0),
                cursors,
            };
        }
        let cursor = self.seek_block(cursors, block);
        Step {
            row: object_row(object, block, read_u32(metadata.blob, cursor.at)),
            cursors: with_cursor(cursors, block.region, cursor),
        }
    }
}

// The objects of a blob, a row for each, at the start of rows.
pub fn list_objects(blob: &[u8], rows: &mut [ObjectRow]) -> Result<usize, MatError>
    ensures { WritesObjects blob.now rows.old result rows.new }
{
    let listing = start_listing(blob, rows.len())?;
    let plan = listing.plan;
    let entries = index_blocks(plan);
    let index = BlockIndex {
        plan,
        entries: &entries,
    };
    let mut cursors = first_cursors(plan.metadata.w);
    // By index: with iter_mut over rows[..count] the loop's invariant cannot name rows, and the return stayed open.
    for i in 0..listing.count {
        let step = index.next_object(cursors, i);
        rows[i] = step.row;
        cursors = step.cursors;
    }
    Ok(listing.count)
}

// A listing of eight rows, and its reply: the rows stand beside it, since a refusal promises them too.
#[derive(Clone, Copy)]
pub struct ObjectList {
    pub reply: Result<usize, MatError>,
    pub rows: [ObjectRow; 8],
}

// The same into eight rows of zeros, by value: its callers need no reference to a row.
pub fn list_eight(blob: &[u8]) -> ObjectList
    ensures { WritesObjects blob.now blank_rows result.reply result.rows }
{
    let mut rows = [ObjectRow::default(); 8];
    let reply = list_objects(blob, &mut rows);
    ObjectList { reply, rows }
}
