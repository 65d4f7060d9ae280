// The classes of a metadata blob.
ghost use Rattle.std.specs.Prelude.{◌≡◌, ◌≤◌, length};
ghost use Rattle.text.specs.Replies.{outcome};
ghost use Rattle.text.specs.Result.{ok};
ghost use Rattle.reader.specs.Decode.{check_string_class, string_class};
ghost use Rattle.reader.specs.Names.{shown_bytes};
ghost use Rattle.reader.specs.Queries.{qualified, check_names, entry_text, entry_of, class_of, class_text, object_class_text};
ghost use Rattle.reader.specs.Replies.{WritesText};

use crate::file_wrapper::Metadata;
use crate::names::{check_name, shown_size, write_shown};
use crate::records::ClassEntry;
use text::error::MatError;
use text::utf8::{LossySize, put_lossy};

// Namespace, full stop, name.
fn write_joined(namespace: &[u8], name: &[u8], text: &mut [u8]) -> Result<LossySize, MatError>
    requires { (length «namespace».now ≤ 16777216) × (length name.now ≤ 16777216) }
    ensures { let class = qualified (shown_bytes «namespace».now) (shown_bytes name.now) in
        WritesText (ok class) text.old result text.new }
{
    let first = shown_size(namespace);
    let second = shown_size(name);
    let stop = first.bytes;
    let bytes = stop + 1 + second.bytes;
    let replaced = first.replaced + second.replaced;
    if text.len() < bytes {
        return Err(MatError::OutputTooShort(bytes as u64));
    }
    put_lossy(namespace, text, 0);
    text[stop] = b'.';
    put_lossy(name, text, stop + 1);
    Ok(LossySize { bytes, replaced })
}

impl<'a> Metadata<'a> {
    // Check 9, and the entry.
    #[tactic(auto, unfolding(crate::specs::Queries::entry_of))]
    fn read_class(self, class_id: u32) -> Result<ClassEntry, MatError>
        ensures { outcome result ≡ entry_of self.entry.blob.now self.entry.w class_id }
    {
        if self.w.classes <= class_id as usize {
            return Err(MatError::ClassIdOutOfRange(u64::from(class_id)));
        }
        let at = self.w.offsets[0] + ClassEntry::SIZE * class_id as usize;
        Ok(ClassEntry::read(self.blob, at))
    }

    // Check 11 for the name and the namespace of a class.
    fn check_names(self, entry: ClassEntry) -> Result<(), MatError>
        ensures { outcome result ≡ check_names self.entry.w entry }
    {
        check_name(self.w, entry.name_idx)?;
        check_name(self.w, entry.namespace_idx)
    }

    // The text of a class entry: check 11 for its name and its namespace.
    fn write_entry(self, entry: ClassEntry, text: &mut [u8]) -> Result<LossySize, MatError>
        ensures { WritesText (entry_text self.entry.blob.now self.entry.w entry) text.old result text.new }
    {
        self.check_names(entry)?;
        let name = self.own_bytes(entry.name_idx);
        if entry.namespace_idx == 0 {
            return write_shown(name, text);
        }
        write_joined(self.own_bytes(entry.namespace_idx), name, text)
    }

    // The text of a class: check 9, then those of its entry.
    fn write_class(self, class_id: u32, text: &mut [u8]) -> Result<LossySize, MatError>
        ensures { WritesText (class_of self.entry.blob.now self.entry.w class_id) text.old result text.new }
    {
        let entry = self.read_class(class_id)?;
        self.write_entry(entry, text)
    }

    // Whether a class entry is string: check 11 for its name and its namespace, and 16. With a namespace it shows a full stop, which string
    // has not; without one it shows string exactly where it is stored so.
    fn check_string_entry(self, entry: ClassEntry) -> Result<(), MatError>
        ensures { outcome result ≡ check_string_class (entry_text self.entry.blob.now self.entry.w entry) }
    {
        self.check_names(entry)?;
        if entry.namespace_idx != 0 {
            return Err(MatError::NotStringObject(0));
        }
        if self.own_bytes(entry.name_idx) == b"string".as_slice() {
            return Ok(());
        }
        Err(MatError::NotStringObject(0))
    }

    // Whether a class is string: check 9, then those of its entry.
    pub(crate) fn check_string_class(self, class_id: u32) -> Result<(), MatError>
        ensures { outcome result ≡ string_class self.entry.blob.now self.entry.w class_id }
    {
        let entry = self.read_class(class_id)?;
        self.check_string_entry(entry)
    }
}

// The class of an id, as it is shown, at the start of text.
pub fn class_name(blob: &[u8], class_id: u32, text: &mut [u8]) -> Result<LossySize, MatError>
    ensures { WritesText (class_text blob.now class_id) text.old result text.new }
{
    Metadata::open(blob)?.write_class(class_id, text)
}

// The class of an object, as it is shown, at the start of text.
pub fn object_class_name(
    blob: &[u8],
    object_id: u32,
    text: &mut [u8],
) -> Result<LossySize, MatError>
    ensures { WritesText (object_class_text blob.now object_id) text.old result text.new }
{
    let metadata = Metadata::open(blob)?;
    let object = metadata.check_object(object_id)?;
    metadata.write_class(object.record().class_id, text)
}
