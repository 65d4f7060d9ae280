// String objects as `src/mat/string_object.rs` of the Rust writes them: saveobj payloads, opaque metadata, and the metadata blob.
ghost use Rattle.std.specs.Prelude.{◌≡◌, ◌≤◌, length};
ghost use Rattle.text.specs.Buffer.{put};
ghost use Rattle.text.specs.Replies.{outcome};
ghost use Rattle.writer.specs.Array.{payload};
ghost use Rattle.writer.specs.FileWrapper.{is_file_wrapper};
ghost use Rattle.writer.specs.Metadata.{object_metadata};
ghost use Rattle.writer.specs.Replies.{measured_payload, EncodesPayload, BuildsMetadata};
ghost use Rattle.writer.specs.Stages.Payload.{array_in, PayloadFits};

use crate::checks::{Strings, is_shape};
use crate::file_wrapper::ObjectCount;
use crate::packing::put_strings;
use text::copy::copy_into;
use text::error::MatError;

// The first word of opaque metadata.
pub const MCOS_MAGIC_NUMBER: u32 = 0xDD00_0000;

// The version word of a saveobj payload.
pub const MATLAB_STRING_SAVEOBJ_VERSION: u64 = 1;

// The most words of a payload, and the most objects of a store.
pub const MAX_PAYLOAD_WORDS: usize = 2097152;

pub const MAX_OBJECTS: u64 = 349522;

// The bytes of a metadata blob for no object, and those of each object.
pub const BLOB_BASE: u64 = 144;

pub const BLOB_STEP: u64 = 48;

// The opaque metadata of one object.
pub fn create_string_object_metadata(object_id: u32) -> [u32; 6]
    ensures { result ≡ object_metadata object_id }
{
    [MCOS_MAGIC_NUMBER, 2, 1, 1, object_id, 1]
}

// Checks 30, 31 and 32 of writing an array, and the words of its payload. The array comes as C passes it: dimensions, a text, and spans in
// the text, which are pairs of offset and length. Three by themselves: a struct would be made for one call, and carry no fact, since nothing
// is checked before. store's edits hand an array on from call to call, and have StringArray for it.
#[tactic(auto, using(crate::proofs::checks::Measure::payload_odd))]
pub fn measure_payload(dims: &[u64], text: &[u8], spans: &[u64]) -> Result<usize, MatError>
    ensures { outcome result ≡ measured_payload dims.now text.now spans.now }
{
    if spans.len() % 2 != 0 {
        return Err(MatError::InvalidText(spans.len() as u64));
    }
    let strings = Strings { text, spans };
    let units = strings.measure()?;
    let n = strings.len();
    if !is_shape(dims, n) {
        return Err(MatError::ShapeMismatch(n as u64));
    }
    let words = 2 + dims.len() + n + units.div_ceil(4);
    if MAX_PAYLOAD_WORDS < words {
        return Err(MatError::LimitExceeded(words as u64));
    }
    Ok(words)
}

// Writes the payload of an array of strings to the start of words: the parts of text that the spans name, in the shape of dims.
pub fn encode_string_saveobj_payload(
    dims: &[u64],
    text: &[u8],
    spans: &[u64],
    words: &mut [u64],
) -> Result<usize, MatError>
    ensures { EncodesPayload dims.now text.now spans.now words.old result words.new }
{
    let n = measure_payload(dims, text, spans)?;
    if words.len() < n {
        return Err(MatError::OutputTooShort(n as u64));
    }
    put_payload(dims, text, spans, words);
    Ok(n)
}

// Writes a payload that was measured.
fn put_payload(dims: &[u64], text: &[u8], spans: &[u64], words: &mut [u64])
    requires { PayloadFits dims.now text.now spans.now (length words.old) }
    ensures { words.new ≡ put words.old 0
        (payload (array_in dims.now text.now spans.now)) }
{
    words[0] = MATLAB_STRING_SAVEOBJ_VERSION;
    words[1] = dims.len() as u64;
    let start = 2 + dims.len();
    copy_into(dims, words, 2);
    put_strings(Strings { text, spans }, &mut words[start..]);
}

// Writes the metadata blob for a number of string objects to the start of blob.
pub fn build_string_filewrapper_metadata(
    object_count: u64,
    blob: &mut [u8],
) -> Result<usize, MatError>
    ensures { BuildsMetadata object_count blob.old result blob.new }
{
    let count = ObjectCount::new(object_count)?;
    let need = count.blob_size();
    if blob.len() < need {
        return Err(MatError::OutputTooShort(need as u64));
    }
    count.put_file_wrapper(blob);
    Ok(need)
}

// Whether blob is the metadata blob for a number of string objects.
#[tactic(auto, using(crate::proofs::compare::Laws::many_not, crate::proofs::compare::Laws::is_blob))]
pub fn is_string_filewrapper_metadata(object_count: u64, blob: &[u8]) -> bool
    ensures { result ≡ is_file_wrapper object_count blob.now }
{
    ObjectCount::new(object_count).is_ok_and(|count| count.has_file_wrapper(blob))
}
