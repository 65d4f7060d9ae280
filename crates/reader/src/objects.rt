// The objects of a metadata blob.
ghost use Rattle.std.specs.Prelude.{◌≡◌, ◌<◌, IfOk};
ghost use Rattle.text.specs.Replies.{outcome};
ghost use Rattle.text.specs.Result.{map_result};
ghost use Rattle.reader.specs.Objects.{region_start, region_blocks, check_block};
ghost use Rattle.reader.specs.Queries.{check_object, object_record};
ghost use Rattle.reader.specs.Stages.Objects.{number_of, HasObject, block_of, row_from, ReadsObject};

use crate::blocks::block_after;
use crate::file_wrapper::{FileWrapper, Metadata};
use crate::records::{ObjectRecord, Triple, read_u32};
use text::error::MatError;

// An object: its class, the region of its property block (0 saved, 1 normal), the block's id there, and how many properties it has.
// Four numbers, as C reads the row.
#[repr(C)]
#[derive(Clone, Copy, Debug, Default, PartialEq, Eq)]
pub struct ObjectRow {
    pub class_id: u32,
    pub region: u32,
    pub block_id: u32,
    pub property_count: u32,
}

// The two property regions of a blob.
#[derive(Clone, Copy, Debug, PartialEq, Eq)]
pub(crate) enum Region {
    Saved = 0,
    Normal = 1,
}

impl Region {
    // Its number in a row.
    fn number(self) -> u32
        ensures { result ≡ number_of self }
    {
        self as u32
    }
}

// The property block of an object: its region, and its id there.
#[derive(Clone, Copy, Debug, PartialEq, Eq)]
pub(crate) struct BlockId {
    pub(crate) region: Region,
    pub(crate) id: u32,
}

// The block that a record names: a saved one goes before a normal one. Without a block the id is 0, and no Option: a row has region and id
// then too.
pub(crate) fn block_of(object: ObjectRecord) -> BlockId
    ensures { result ≡ block_of object }
{
    if object.saveobj_id == 0 {
        return BlockId {
            region: Region::Normal,
            id: object.normalobj_id,
        };
    }
    BlockId {
        region: Region::Saved,
        id: object.saveobj_id,
    }
}

// No array by Region: C has the offsets by number, and the fields of FileWrapper are public.
pub(crate) fn region_start(w: FileWrapper, region: Region) -> usize
    ensures { result ≡ region_start w (number_of region) }
{
    match region {
        Region::Saved => w.offsets[1],
        Region::Normal => w.offsets[3],
    }
}

pub(crate) fn region_blocks(w: FileWrapper, region: Region) -> usize
    ensures { result ≡ region_blocks w (number_of region) }
{
    match region {
        Region::Saved => w.saveobj_blocks,
        Region::Normal => w.normalobj_blocks,
    }
}

// Check 10 for an object.
#[tactic(auto, unfolding(crate::specs::Objects::check_block))]
pub(crate) fn check_block(w: FileWrapper, object: ObjectRecord) -> Result<(), MatError>
    ensures { outcome result ≡ check_block w object }
{
    let block = block_of(object);
    if block.id == 0 {
        return Ok(());
    }
    if region_blocks(w, block.region) <= block.id as usize {
        return Err(MatError::PropertyBlockIdOutOfRange(u64::from(block.id)));
    }
    Ok(())
}

pub(crate) fn object_row(object: ObjectRecord, block: BlockId, property_count: u32) -> ObjectRow
    ensures { result ≡ row_from object block property_count }
{
    ObjectRow {
        class_id: object.class_id,
        region: block.region.number(),
        block_id: block.id,
        property_count,
    }
}

// An object, and the byte of its block's count (0 where it has no block).
// 0 and no Option: its triples, none of them, are then read like those of any other.
#[derive(Clone, Copy, Debug, PartialEq, Eq)]
pub(crate) struct LocatedObject {
    pub(crate) row: ObjectRow,
    pub(crate) at: usize,
}

// An object that the blob has.
#[derive(Clone, Copy)]
pub(crate) struct Object<'a> {
    pub(crate) metadata: Metadata<'a>,
    pub(crate) id: u32,
    ghost there: { HasObject metadata.w id },
}

impl<'a> Metadata<'a> {
    ghost use Rattle.reader.specs.declared.objects.Object.{Object};

    // The object of an id: check 8.
    #[tactic(auto, unfolding(crate::specs::Queries::check_object))]
    pub(crate) fn check_object(self, object_id: u32) -> Result<Object<'a>, MatError>
        ensures checked { map_result (λ (o : Object). tt) (outcome result) ≡ check_object self.entry.w object_id }
        ensures is { IfOk result (λ (o : Object). (o.metadata ≡ self.entry) × (o.id ≡ object_id)) }
    {
        if object_id == 0 {
            return Err(MatError::ObjectIdOutOfRange(0));
        }
        if self.w.records <= object_id as usize {
            return Err(MatError::ObjectIdOutOfRange(u64::from(object_id)));
        }
        Ok(Object {
            metadata: self,
            id: object_id,
        })
    }
}

impl<'a> Object<'a> {
    pub(crate) fn record(self) -> ObjectRecord
        ensures { let m = self.entry.metadata in
            result ≡ object_record m.blob.now m.w self.entry.id }
    {
        let at = self.metadata.w.offsets[2] + ObjectRecord::SIZE * self.id as usize;
        ObjectRecord::read(self.metadata.blob, at)
    }

    // Its row, and where its block stands: check 10.
    pub(crate) fn read(self) -> Result<LocatedObject, MatError>
        ensures { let m = self.entry.metadata in
            ReadsObject m.blob.now m.w (object_record m.blob.now m.w self.entry.id) result }
    {
        let object = self.record();
        check_block(self.metadata.w, object)?;
        let block = block_of(object);
        if block.id == 0 {
            return Ok(LocatedObject {
                row: object_row(object, block, 0),
                at: 0,
            });
        }
        let start = region_start(self.metadata.w, block.region);
        let at = block_after(self.metadata.blob, start, block.id as usize, Triple::SIZE);
        Ok(LocatedObject {
            row: object_row(object, block, read_u32(self.metadata.blob, at)),
            at,
        })
    }
}
