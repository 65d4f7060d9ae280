// The names of a blob, each with a value that is told by a look at it, a chunk of names at a time.
ghost use Rattle.std.specs.Prelude.{◌≡◌, ◌+◌, ◌≤◌, ◌<◌, ℕ, List, length};
ghost use Rattle.reader.specs.Queries.{own_bytes};
ghost use Rattle.reader.specs.Stages.Chunks.{ToNames, Looks, value_in, FillsTable};

use crate::file_wrapper::{HEADER, Metadata};

// So many names are looked at before the triples, or the rows, that may name them are gone over once for all of them.
pub(crate) const CHUNK: usize = 4096;

// The value of a name, whether it says more than that of most names, and where the next name begins.
// any is told and not found by `==`: the usual value is a ghost, for which a constant and a comparison with its contract would be two members
// more. next is a byte and no rest as a slice: after a last name that no zero byte ends it lies past the heap, and an empty rest would be one
// more name, an empty one.
#[derive(Clone, Copy)]
pub(crate) struct Looked<T> {
    pub(crate) value: T,
    pub(crate) any: bool,
    pub(crate) next: usize,
}

// What tells a name's value; most names have the usual one.
pub(crate) trait Look: Copy {
    type Value: Copy;

    ghost usual: { Self.Value };

    ghost told: { Self → List ℕ → Self.Value };

    // Looks at name index, which begins at start.
    fn look_at(self, metadata: Metadata, index: usize, start: usize) -> Looked<Self::Value>
        requires { ToNames metadata index (index + 1) start }
        ensures { Looks metadata.entry usual (told self) index result };
}

// Names first up to end, and whether one of their values is not the usual one. The values stand in a table that the caller lends: a chunk
// with a table of its own is copied where it is returned, which takes a search of few names 1.2 times the time.
#[derive(Clone, Copy)]
pub(crate) struct Chunk {
    first: usize,
    end: usize,
    pub(crate) any: bool,
    ghost few: { end ≤ first + 4096 },
}

impl Chunk {
    // The value of a name where it is one of them, else another.
    #[tactic(auto, unfolding(crate::specs::Stages::Chunks::value_in))]
    pub(crate) fn get_or<T: Copy>(self, table: &[T; CHUNK], index: u32, other: T) -> T
        ensures { result ≡ value_in table.now self.first self.end index other }
    {
        let i = index as usize;
        if (self.first..self.end).contains(&i) {
            table[i - self.first]
        } else {
            other
        }
    }
}

// The walk of a blob's names from the first on: the names below name have been looked at, and name begins at start, a byte as in Looked.
#[derive(Clone, Copy)]
pub(crate) struct NameWalk<'a> {
    metadata: Metadata<'a>,
    pub(crate) name: usize,
    start: usize,
    ghost to_names: { ToNames metadata name name start },
}

impl<'a> NameWalk<'a> {
    // No name has been looked at.
    pub(crate) fn new(metadata: Metadata<'a>) -> NameWalk<'a>
        ensures of { result.metadata ≡ metadata.entry }
        ensures first { result.name ≡ 0 }
    {
        NameWalk {
            metadata,
            name: 0,
            start: HEADER,
        }
    }

    // The empty name is passed over, for a look to which it has the usual value: the chunks are then of stored names alone.
    pub(crate) fn stored(metadata: Metadata<'a>) -> NameWalk<'a>
        ensures of { result.metadata ≡ metadata.entry }
        ensures first { result.name ≡ 1 }
    {
        NameWalk {
            metadata,
            name: 1,
            start: HEADER,
        }
    }

    // Looks at a chunk of names, and goes on to the name after them. That there is one is the test of the callers' loops.
    pub(crate) fn next_chunk<L: Look>(&mut self, look: L, table: &mut [L::Value; CHUNK]) -> Chunk
        requires { self.old.name ≤ self.old.metadata.w.names }
        ensures same { self.new.metadata ≡ self.old.metadata }
        ensures first { result.first ≡ self.old.name }
        ensures end { result.end ≡ self.new.name }
        ensures fills { let told = FillsTable self.old.metadata L.usual (L.told look) self.old.name in
            told self.new.name table.new result.any self.new.start }
    {
        let metadata = self.metadata;
        let first = self.name;
        let end = usize::min(first + CHUNK, metadata.w.names as usize + 1);
        let mut any = false;
        let mut next = self.start;
        for x in first..end {
            let name = look.look_at(metadata, x, next);
            table[x - first] = name.value;
            any |= name.any;
            next = name.next;
        }
        *self = NameWalk {
            metadata,
            name: end,
            start: next,
        };
        Chunk { first, end, any }
    }
}
