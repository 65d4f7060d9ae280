// Structs of bindings/mcos.h of which each number is 64 bits wide. Those of reader that they are made from have sizes and an enum.
ghost use Rattle.std.specs.Prelude.{◌≡◌};
ghost use Rattle.mcos.specs.Exports.{file_wrapper_cells, part_cells};

use reader::file_wrapper::FileWrapper;
use reader::labels::{Part, Source};

// The numbers of an opened blob: `mcos_file_wrapper`.
#[repr(C)]
#[derive(Clone, Copy)]
pub struct McosFileWrapper {
    pub names: u64,
    pub classes: u64,
    pub records: u64,
    pub saveobj_blocks: u64,
    pub normalobj_blocks: u64,
    pub offsets: [u64; 8],
}

impl From<FileWrapper> for McosFileWrapper {
    ghost from_gives = { λ w c. c ≡ file_wrapper_cells w };

    fn from(value: FileWrapper) -> McosFileWrapper {
        McosFileWrapper {
            names: u64::from(value.names),
            classes: value.classes as u64,
            records: value.records as u64,
            saveobj_blocks: value.saveobj_blocks as u64,
            normalobj_blocks: value.normalobj_blocks as u64,
            offsets: std::array::from_fn(|k| value.offsets[k] as u64),
        }
    }
}

// A label's part: `mcos_part`.
#[repr(C)]
#[derive(Clone, Copy)]
pub struct McosPart {
    pub source: u64,
    pub start: u64,
    pub length: u64,
}

impl From<Part> for McosPart {
    ghost from_gives = { λ p c. c ≡ part_cells p };

    fn from(value: Part) -> McosPart {
        McosPart {
            source: match value.source {
                Source::Blob => 0,
                Source::Placeholder => 1,
            },
            start: value.start as u64,
            length: value.length as u64,
        }
    }
}
