// The kinds of failure of the library's calls.
ghost use Rattle.std.specs.Prelude.{◌≡◌};
ghost use Rattle.text.specs.Errors.{failure_of};

use std::fmt;

// The first check of a call that does not hold, with its place. Question N of documents 01 and 02 is the Nth kind.
// The place is a number in each, as C reads it: a kind that has none says 0, and NotStringObject 0 or 1 by its reason.
#[derive(Clone, Copy, Debug, PartialEq, Eq)]
pub enum MatError {
    BlobTooLong(u64),
    BlobTooShort(u64),
    OffsetOutOfBounds(u64),
    NameHeapTooEarly(u64),
    OffsetsDescending(u64),
    TooFewNames(u64),
    PropertyBlockTruncated(u64),
    ObjectIdOutOfRange(u64),
    ClassIdOutOfRange(u64),
    PropertyBlockIdOutOfRange(u64),
    NameIndexOutOfRange(u64),
    UnknownFieldType(u64),
    InvalidDirectory(u64),
    CellNotFound(u64),
    UnexpectedCellKind(u64),
    NotStringObject(u64),
    OpaqueMetadataSize(u64),
    OpaqueMetadataMagic(u64),
    OpaqueMetadataDimensionsTruncated(u64),
    OpaqueMetadataProductOverflow(u64),
    OpaqueMetadataSizeMismatch(u64),
    PayloadSize(u64),
    PayloadVersion(u64),
    PayloadDimensionsTruncated(u64),
    PayloadProductOverflow(u64),
    PayloadLengthsTruncated(u64),
    PayloadLengthSumOverflow(u64),
    PayloadUnitsTruncated(u64),
    UnpairedSurrogate(u64),
    InvalidText(u64),
    ShapeMismatch(u64),
    LimitExceeded(u64),
    NotCanonical(u64),
    OutputTooShort(u64),
    NameIllFormed(u64),
    UnmappableCharacter(u64),
}

// The number of a check and its place, as the documents count them.
// Numbers, because C and the recorded lines are told by them; the library itself goes by MatError.
#[derive(Clone, Copy, Debug, PartialEq, Eq)]
pub struct Failure {
    pub number: u32,
    pub place: u64,
}

// A refusal as the programs print it.
impl fmt::Display for Failure {
    ghost use Rattle.std.specs.Prelude.{Some};
    ghost use Rattle.text.specs.Errors.{refusal_text};

    ghost output = { λ f. Some (refusal_text f) };

    fn fmt<W: fmt::Write>(&self, f: &mut fmt::Formatter<W>) -> fmt::Result {
        write!(f, "refused {} {}", self.number, self.place)
    }
}

// One arm a kind: a kind carries its place, so that no cast tells its number.
impl From<MatError> for Failure {
    ghost from_gives = { λ e f. f ≡ failure_of e };

    fn from(value: MatError) -> Failure {
        match value {
            MatError::BlobTooLong(place) => Failure { number: 1, place },
            MatError::BlobTooShort(place) => Failure { number: 2, place },
            MatError::OffsetOutOfBounds(place) => Failure { number: 3, place },
            MatError::NameHeapTooEarly(place) => Failure { number: 4, place },
            MatError::OffsetsDescending(place) => Failure { number: 5, place },
            MatError::TooFewNames(place) => Failure { number: 6, place },
            MatError::PropertyBlockTruncated(place) => Failure { number: 7, place },
            MatError::ObjectIdOutOfRange(place) => Failure { number: 8, place },
            MatError::ClassIdOutOfRange(place) => Failure { number: 9, place },
            MatError::PropertyBlockIdOutOfRange(place) => Failure { number: 10, place },
            MatError::NameIndexOutOfRange(place) => Failure { number: 11, place },
            MatError::UnknownFieldType(place) => Failure { number: 12, place },
            MatError::InvalidDirectory(place) => Failure { number: 13, place },
            MatError::CellNotFound(place) => Failure { number: 14, place },
            MatError::UnexpectedCellKind(place) => Failure { number: 15, place },
            MatError::NotStringObject(place) => Failure { number: 16, place },
            MatError::OpaqueMetadataSize(place) => Failure { number: 17, place },
            MatError::OpaqueMetadataMagic(place) => Failure { number: 18, place },
            MatError::OpaqueMetadataDimensionsTruncated(place) => Failure { number: 19, place },
            MatError::OpaqueMetadataProductOverflow(place) => Failure { number: 20, place },
            MatError::OpaqueMetadataSizeMismatch(place) => Failure { number: 21, place },
            MatError::PayloadSize(place) => Failure { number: 22, place },
            MatError::PayloadVersion(place) => Failure { number: 23, place },
            MatError::PayloadDimensionsTruncated(place) => Failure { number: 24, place },
            MatError::PayloadProductOverflow(place) => Failure { number: 25, place },
            MatError::PayloadLengthsTruncated(place) => Failure { number: 26, place },
            MatError::PayloadLengthSumOverflow(place) => Failure { number: 27, place },
            MatError::PayloadUnitsTruncated(place) => Failure { number: 28, place },
            MatError::UnpairedSurrogate(place) => Failure { number: 29, place },
            MatError::InvalidText(place) => Failure { number: 30, place },
            MatError::ShapeMismatch(place) => Failure { number: 31, place },
            MatError::LimitExceeded(place) => Failure { number: 32, place },
            MatError::NotCanonical(place) => Failure { number: 33, place },
            MatError::OutputTooShort(place) => Failure { number: 34, place },
            MatError::NameIllFormed(place) => Failure { number: 35, place },
            MatError::UnmappableCharacter(place) => Failure { number: 36, place },
        }
    }
}

impl fmt::Display for MatError {
    ghost use Rattle.std.specs.Prelude.{Some};
    ghost use Rattle.text.specs.Errors.{refusal_text};

    ghost output = { λ e. Some (refusal_text (failure_of e)) };

    fn fmt<W: fmt::Write>(&self, f: &mut fmt::Formatter<W>) -> fmt::Result {
        self.failure().fmt(f)
    }
}

impl MatError {
    pub fn failure(self) -> Failure
        ensures { result ≡ failure_of self }
    {
        Failure::from(self)
    }
}
