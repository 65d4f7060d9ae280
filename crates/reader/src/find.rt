// Finding a property by its name.
ghost use Rattle.std.specs.Prelude.{◌≡◌, ◌≤◌, cond, false};
ghost use Rattle.text.specs.Buffer.{same};
ghost use Rattle.reader.specs.Objects.{is_stored_as, find_property, position};
ghost use Rattle.reader.specs.Stages.Properties.{named_triples};
ghost use Rattle.reader.specs.Stages.Chunks.{value_in};
ghost use Rattle.reader.specs.Stages.Find.{first_of};
ghost use Rattle.text.specs.Replies.{outcome};

use crate::chunks::{CHUNK, Chunk, Look, Looked, NameWalk};
use crate::file_wrapper::Metadata;
use crate::names::compare_piece;
use crate::properties::object_triples;
use crate::triples::Triples;
use text::error::MatError;

// Whether a name is stored as these bytes.
#[derive(Clone, Copy)]
struct Wanted<'a> {
    bytes: &'a [u8],
}

impl<'a> Look for Wanted<'a> {
    type Value = bool;

    ghost usual = { false };

    ghost told = { λ s name. same name s.bytes.now };

    // Index 0 is the empty name, before the first piece.
    fn look_at(self, metadata: Metadata, index: usize, start: usize) -> Looked<bool> {
        if index == 0 {
            let equal = self.bytes.is_empty();
            return Looked {
                value: equal,
                any: equal,
                next: start,
            };
        }
        let piece = compare_piece(metadata.heap_at(start), self.bytes);
        Looked {
            value: piece.equal,
            any: piece.equal,
            next: start + piece.end + 1,
        }
    }
}

impl<'a> Triples<'a> {
    // The first of limit triples whose name is a wanted one of the chunk, else limit. A search of the triples for each name by itself would
    // take names times triples where many names are the same.
    // Limit and no Option: what is answered is the limit of the next chunk.
    #[tactic(auto, unfolding(crate::specs::Stages::Find::first_of, crate::specs::Stages::Find::first_index, crate::specs::Objects::triples_from))]
    fn first_in(self, limit: usize, flags: &[bool; CHUNK], chunk: Chunk) -> usize
        requires { limit ≤ self.count }
        ensures { let first = first_of (λ x. value_in flags.now chunk.first chunk.end x false) self.entry limit in
            result ≡ cond chunk.any first limit }
    {
        if !chunk.any {
            return limit;
        }
        (0..limit)
            .find(|&k| chunk.get_or(flags, self.get(k).name_idx, false))
            .unwrap_or(limit)
    }

    // The position of the first triple whose name is stored as wanted. The name heap is walked once.
    // A chunk tells where the next begins, so that no range counts them. count_replaced walks so too: a common walk would take
    // the turn as a closure and its promise as a parameter, for the two lines of a loop.
    pub(crate) fn first_named(self, wanted: &[u8]) -> Option<usize>
        ensures { let m = self.entry.metadata in
            result ≡ position (is_stored_as m.blob.now m.w wanted.now) (named_triples self.entry) }
    {
        let names = self.metadata.w.names as usize;
        let look = Wanted { bytes: wanted };
        let mut flags = [false; CHUNK];
        let mut walk = NameWalk::new(self.metadata);
        let mut best = self.count;
        while walk.name <= names {
            let chunk = walk.next_chunk(look, &mut flags);
            best = self.first_in(best, &flags, chunk);
        }
        (best < self.count).then_some(best)
    }
}

// The position of the first property of an object whose name is stored as wanted.
#[tactic(auto, unfolding(crate::specs::Objects::find_property, crate::specs::Stages::Properties::object_triples))]
pub fn find_property(blob: &[u8], object_id: u32, wanted: &[u8]) -> Result<Option<usize>, MatError>
    ensures { outcome result ≡ find_property blob.now object_id wanted.now }
{
    Ok(object_triples(blob, object_id)?.first_named(wanted))
}
