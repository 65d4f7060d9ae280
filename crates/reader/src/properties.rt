// The properties of an object.
ghost use Rattle.std.specs.Prelude.{◌≡◌, map, ◌<◌, length};
ghost use Rattle.text.specs.Replies.{outcome};
ghost use Rattle.reader.specs.Objects.{triples_from, check_triple, check_triples, row_of, replaced_of, object_properties};
ghost use Rattle.reader.specs.Stages.Properties.{named_triples, RecordTriples, ReadsTriples};
ghost use Rattle.reader.specs.Stages.Triples.{TriplesIn};
ghost use Rattle.reader.specs.Stages.Replacements.{no_count};
ghost use Rattle.reader.specs.Queries.{object_record};
ghost use Rattle.reader.specs.Replies.{WritesRows};

use crate::file_wrapper::{FileWrapper, Metadata};
use crate::names::check_name;
use crate::objects::Object;
use crate::records::Triple;
use crate::replacements::count_replaced;
use crate::triples::Triples;
use text::error::MatError;

// A property: its name index, its type (0 name, 1 heap, 2 inline), its value, and how many replacement characters stand in its name, and in
// its value where that is a name, else 0. Five numbers, the type too, as C reads the row.
#[repr(C)]
#[derive(Clone, Copy, Debug, Default, PartialEq, Eq)]
pub struct PropertyRow {
    pub name_index: u32,
    pub field_type: u32,
    pub value: u32,
    pub name_replaced: u32,
    pub value_replaced: u32,
}

// Checks 11 and 12 for one property.
#[tactic(auto, unfolding(crate::specs::Objects::check_triple))]
fn check_triple(w: FileWrapper, triple: Triple) -> Result<(), MatError>
    ensures { outcome result ≡ check_triple w triple }
{
    check_name(w, triple.name_idx)?;
    if 2 < triple.field_type {
        return Err(MatError::UnknownFieldType(u64::from(triple.field_type)));
    }
    if triple.field_type == 0 {
        check_name(w, triple.value)?;
    }
    Ok(())
}

// The same for count triples from byte start on.
#[tactic(auto, unfolding(crate::specs::Objects::check_triples, crate::specs::Objects::triples_from))]
fn check_triples(metadata: Metadata, start: usize, count: usize) -> Result<(), MatError>
    requires { TriplesIn metadata.blob.now start count }
    ensures { let b = metadata.entry.blob.now in
        outcome result ≡ check_triples metadata.entry.w (triples_from b start count) }
{
    for i in 0..count {
        let triple = Triple::read(metadata.blob, start + Triple::SIZE * i);
        check_triple(metadata.w, triple)?;
    }
    Ok(())
}

// Checks 10 to 12 for an object.
#[tactic(auto, unfolding(crate::specs::Objects::record_triples, crate::specs::Objects::record_row))]
pub(crate) fn record_triples(object: Object) -> Result<Triples, MatError>
    ensures { let m = object.entry.metadata in
        RecordTriples m (object_record m.blob.now m.w object.entry.id) result }
{
    let metadata = object.metadata;
    let located = object.read()?;
    let at = located.at + 4;
    let count = located.row.property_count as usize;
    check_triples(metadata, at, count)?;
    Ok(Triples {
        metadata,
        at,
        count,
    })
}

// The triples of an object: checks 1 to 8 and 10 to 12.
#[tactic(auto, unfolding(crate::specs::Stages::Properties::object_triples))]
pub(crate) fn object_triples(blob: &[u8], object_id: u32) -> Result<Triples, MatError>
    ensures { ReadsTriples blob.now object_id result }
{
    let metadata = Metadata::open(blob)?;
    record_triples(metadata.check_object(object_id)?)
}

// The row of a triple before its names are counted.
fn row_of(triple: Triple) -> PropertyRow
    ensures { result ≡ row_of no_count triple }
{
    PropertyRow {
        name_index: triple.name_idx,
        field_type: triple.field_type,
        value: triple.value,
        name_replaced: 0,
        value_replaced: 0,
    }
}

impl<'a> Triples<'a> {
    // A row for each.
    fn put_rows(self, rows: &mut [PropertyRow])
        requires { length rows.old ≡ self.count }
        ensures { rows.new ≡ map (row_of no_count) (named_triples self.entry) }
    {
        for (i, row) in rows.iter_mut().enumerate() {
            *row = row_of(self.get(i));
        }
    }

    // The same with the counts of their names.
    fn write_rows(self, rows: &mut [PropertyRow])
        requires { length rows.old ≡ self.count }
        ensures { let m = self.entry.metadata in
            rows.new ≡ map (row_of (replaced_of m.blob.now m.w)) (named_triples self.entry) }
    {
        self.put_rows(rows);
        count_replaced(self.metadata, rows);
    }
}

// The properties of an object, a row for each, at the start of rows.
#[tactic(auto, unfolding(crate::specs::Objects::object_properties, crate::specs::Objects::record_properties, crate::specs::Stages::Properties::object_triples))]
pub fn properties(blob: &[u8], object_id: u32, rows: &mut [PropertyRow]) -> Result<usize, MatError>
    ensures { WritesRows (object_properties blob.now object_id) rows.old result rows.new }
{
    let triples = object_triples(blob, object_id)?;
    let count = triples.count;
    if rows.len() < count {
        return Err(MatError::OutputTooShort(count as u64));
    }
    triples.write_rows(&mut rows[..count]);
    Ok(count)
}
