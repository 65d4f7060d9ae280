// A label for a name: the name's own bytes where they lie in the blob, or a placeholder for an empty name.
ghost use Rattle.std.specs.Prelude.{◌≡◌, length};
ghost use Rattle.text.specs.Replies.{outcome};
ghost use Rattle.reader.specs.Labels.{placeholder_part, label_of, IsLabel};

use crate::file_wrapper::Metadata;
use crate::names::check_name;
use std::fmt;
use text::error::MatError;
use text::utf8::terminated_length;

// The buffer that a part belongs to.
#[derive(Clone, Copy, Debug, PartialEq, Eq)]
pub enum Source {
    Blob,
    Placeholder,
}

// A buffer as the programs print it.
impl fmt::Display for Source {
    ghost use Rattle.std.specs.Prelude.{Some};
    ghost use Rattle.reader.specs.Labels.{source_text};

    ghost output = { λ s. Some (source_text s) };

    fn fmt<W: fmt::Write>(&self, f: &mut fmt::Formatter<W>) -> fmt::Result {
        match self {
            Source::Blob => f.write_str("blob"),
            Source::Placeholder => f.write_str("placeholder"),
        }
    }
}

// A part of a lent buffer: which buffer, its first byte there, and how many bytes.
// Numbers and no slice, for C takes three cells. Both buffers are parameters of a label, since it lies in either.
#[derive(Clone, Copy, Debug, PartialEq, Eq)]
pub struct Part {
    pub source: Source,
    pub start: usize,
    pub length: usize,
}

// The label of an empty name.
fn unnamed(placeholder: &[u8]) -> Part
    ensures { result ≡ placeholder_part (length placeholder.now) }
{
    Part {
        source: Source::Placeholder,
        start: 0,
        length: placeholder.len(),
    }
}

// Which part of which buffer is the label of a name index. The name is not copied, so it must be well-formed as it stands; its end is
// found as it is looked at.
pub fn label_source(blob: &[u8], placeholder: &[u8], index: u32) -> Result<Part, MatError>
    ensures { outcome result ≡ label_of blob.now placeholder.now index }
{
    let metadata = Metadata::open(blob)?;
    check_name(metadata.w, index)?;
    if index == 0 {
        return Ok(unnamed(placeholder));
    }
    let rest = metadata.heap_from(index);
    let Some(length) = terminated_length(rest) else {
        return Err(MatError::NameIllFormed(u64::from(index)));
    };
    if length == 0 {
        return Ok(unnamed(placeholder));
    }
    Ok(Part {
        source: Source::Blob,
        start: metadata.w.offsets[0] - rest.len(),
        length,
    })
}

// The part itself: of a refused call the placeholder's first 0 bytes.
pub fn label<'a>(blob: &'a [u8], placeholder: &'a [u8], index: u32) -> &'a [u8]
    ensures { IsLabel blob.entry placeholder.entry index result }
{
    match label_source(blob, placeholder, index) {
        Ok(p) => {
            let end = p.start + p.length;
            match p.source {
                Source::Blob => &blob[p.start..end],
                Source::Placeholder => &placeholder[p.start..end],
            }
        }
        Err(_) => &placeholder[0..0],
    }
}
