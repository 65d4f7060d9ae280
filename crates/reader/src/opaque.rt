// Opaque metadata: which objects a dataset names.
ghost use Rattle.std.specs.Prelude.{◌≡◌};
ghost use Rattle.text.specs.Replies.{outcome};
ghost use Rattle.reader.specs.Opaque.{opaque_metadata};

use text::convert::{checked_product, to_usize};
use text::error::MatError;
use writer::string_object::MCOS_MAGIC_NUMBER;

// The most words of opaque metadata.
pub const MAX_OPAQUE_WORDS: usize = 65536;

// Where the object ids begin, how many they are, and the class id after them.
// Numbers and no slice, as C takes them.
#[derive(Clone, Copy, Debug, PartialEq, Eq)]
pub struct OpaqueMetadata {
    pub first_id: usize,
    pub ids: usize,
    pub class_id: u32,
}

// Checks 17 to 21.
#[tactic(auto, unfolding(crate::specs::Opaque::opaque_metadata))]
pub fn parse_opaque_metadata(metadata: &[u32]) -> Result<OpaqueMetadata, MatError>
    ensures { outcome result ≡ opaque_metadata metadata.now }
{
    let words = metadata.len();
    if words < 3 {
        return Err(MatError::OpaqueMetadataSize(words as u64));
    }
    if MAX_OPAQUE_WORDS < words {
        return Err(MatError::OpaqueMetadataSize(words as u64));
    }
    let magic = metadata[0];
    if magic != MCOS_MAGIC_NUMBER {
        return Err(MatError::OpaqueMetadataMagic(u64::from(magic)));
    }
    let dimensions = metadata[1] as usize;
    if words < 2 + dimensions + 1 {
        return Err(MatError::OpaqueMetadataDimensionsTruncated(dimensions as u64));
    }
    let first_id = 2 + dimensions;
    let product = checked_product(&metadata[2..first_id]).map_err(
        |i| MatError::OpaqueMetadataProductOverflow(i as u64),
    )?;
    // the product can be close to 2^64, where a sum with it would wrap
    if (words - 3 - dimensions) as u64 != product {
        return Err(MatError::OpaqueMetadataSizeMismatch(words as u64));
    }
    let ids = to_usize(product);
    Ok(OpaqueMetadata {
        first_id,
        ids,
        class_id: metadata[first_id + ids],
    })
}
