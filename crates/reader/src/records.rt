// The records of a metadata blob: an entry's size, and reading one at an offset.
// An offset is the format's own number, and blocks are rounded from the blob's start: so bytes are named by their place in it.
ghost use Rattle.std.specs.Prelude.{◌≡◌, ◌+◌, ◌≤◌, ◌<◌, length};
ghost use Rattle.reader.specs.Wire.{u32_at, class_entry_at, object_record_at, triple_at};

// The little-endian 32-bit word at byte at.
#[tactic(auto, unfolding(crate::specs::Wire::u32_at))]
pub(crate) fn read_u32(blob: &[u8], at: usize) -> u32
    requires { at + 4 ≤ length blob.now }
    ensures { result ≡ u32_at blob.now at }
{
    u32::from_le_bytes([blob[at], blob[at + 1], blob[at + 2], blob[at + 3]])
}

// A class: the name indices of its namespace and its name.
// This and the two records below have their size and their reading each: nothing reads records of any kind, as a trait would let it.
#[derive(Clone, Copy, Debug, PartialEq, Eq)]
pub(crate) struct ClassEntry {
    pub(crate) namespace_idx: u32,
    pub(crate) name_idx: u32,
}

impl ClassEntry {
    pub(crate) const SIZE: usize = 16;

    pub(crate) fn read(blob: &[u8], at: usize) -> ClassEntry
        requires { at + 16 ≤ length blob.now }
        ensures { result ≡ class_entry_at blob.now at }
    {
        ClassEntry {
            namespace_idx: read_u32(blob, at),
            name_idx: read_u32(blob, at + 4),
        }
    }
}

// An object: its class, its property block in either region, and its block of dependents.
#[derive(Clone, Copy, Debug, PartialEq, Eq)]
pub(crate) struct ObjectRecord {
    pub(crate) class_id: u32,
    pub(crate) saveobj_id: u32,
    pub(crate) normalobj_id: u32,
    pub(crate) dependency_id: u32,
}

impl ObjectRecord {
    pub(crate) const SIZE: usize = 24;

    pub(crate) fn read(blob: &[u8], at: usize) -> ObjectRecord
        requires { at + 24 ≤ length blob.now }
        ensures { result ≡ object_record_at blob.now at }
    {
        ObjectRecord {
            class_id: read_u32(blob, at),
            saveobj_id: read_u32(blob, at + 12),
            normalobj_id: read_u32(blob, at + 16),
            dependency_id: read_u32(blob, at + 20),
        }
    }
}

// A property: its name index, how its value is meant, and the value.
// The kind stays the format's number: check 12 names the one that it refuses, and a row hands it to C.
#[derive(Clone, Copy, Debug, PartialEq, Eq)]
pub(crate) struct Triple {
    pub(crate) name_idx: u32,
    pub(crate) field_type: u32,
    pub(crate) value: u32,
}

impl Triple {
    pub(crate) const SIZE: usize = 12;

    pub(crate) fn read(blob: &[u8], at: usize) -> Triple
        requires { at + 12 ≤ length blob.now }
        ensures { result ≡ triple_at blob.now at }
    {
        Triple {
            name_idx: read_u32(blob, at),
            field_type: read_u32(blob, at + 4),
            value: read_u32(blob, at + 8),
        }
    }
}
