// A list of edits, run on an empty store by the store's own calls.
#![tactic(auto)]

ghost use Rattle.std.specs.Prelude.{◌≡◌, ◌+◌, ◌*◌, ◌<◌, length};
ghost use Rattle.text.specs.Buffer.{put};
ghost use Rattle.text.specs.Replies.{outcome};
ghost use Rattle.store.specs.Edits.{reply_of};
ghost use Rattle.store.specs.Replies.{edit_in};
ghost use Rattle.history.specs.History.{part, edit_at, edits_in, numbers_of, Ends, Runs};

use store::array::StringArray;
use store::counts::Counts;
use store::edits::{Edit, edit_at};
use text::convert::to_usize;
use text::error::MatError;
use writer::string_object::build_string_filewrapper_metadata;

// The numbers of an edit, and those of a reply.
pub const EDIT_WIDTH: usize = 8;

pub const REPLY_WIDTH: usize = 2;

// A list of edits as flat numbers, whose count may be any: `&[[u64; 8]]` would ask more of a caller than now. Edit i is the eight numbers of ops from 8 * i on: its kind (0 appends, any
// other replaces), its object id, and the offset and length of its dimensions in dims, of its text in text and of its spans in spans. A part
// that does not lie in its list is cut to it.
#[derive(Clone, Copy, Debug)]
pub struct EditList<'a> {
    pub ops: &'a [u64],
    pub dims: &'a [u64],
    pub text: &'a [u8],
    pub spans: &'a [u64],
}

// The counts of a store, and how many edits were run on it.
// The buffers stay with the caller who lends them: there is no heap.
#[derive(Clone, Copy, Debug, PartialEq, Eq)]
pub struct Ran {
    pub counts: Counts,
    pub edits: u64,
}

// The elements of a list from offset on, len of them or as many as there are.
pub fn part<T>(list: &[T], offset: u64, len: u64) -> &[T]
    ensures { result.now ≡ part list.now offset len }
{
    let rest = &list[to_usize(offset).min(list.len())..];
    &rest[..to_usize(len).min(rest.len())]
}

impl<'a> EditList<'a> {
    // Edit i: its kind and its array.
    fn edit(self, i: usize) -> (Edit, StringArray<'a>)
        requires { 8 * i + 7 < length self.ops.now }
        ensures { let l = self.entry in
            edit_in result.0 result.1 ≡ edit_at l.ops.now l.dims.now l.text.now l.spans.now i }
    {
        let at = EDIT_WIDTH * i;
        let edit = match self.ops[at] {
            0 => Edit::Append,
            _ => Edit::Replace(self.ops[at + 1]),
        };
        let array = StringArray {
            dims: part(self.dims, self.ops[at + 2], self.ops[at + 3]),
            text: part(self.text, self.ops[at + 4], self.ops[at + 5]),
            spans: part(self.spans, self.ops[at + 6], self.ops[at + 7]),
        };
        (edit, array)
    }
}

// Writes a reply as two numbers: the check's number and its place, 0 and 0 for none.
// Flat, as run_edits takes them: a list of any length, of which `&mut [[u64; 2]]` would ask more of a caller than now.
fn put_reply(reply: Result<Counts, MatError>, replies: &mut [u64], at: usize)
    requires { at + 1 < length replies.old }
    ensures { replies.new ≡ put replies.old at (numbers_of (reply_of (outcome reply))) }
{
    let (number, place) = match reply {
        Ok(_) => (0, 0),
        Err(e) => {
            let failure = e.failure();
            (u64::from(failure.number), failure.place)
        }
    };
    replies[at] = number;
    replies[at + 1] = place;
}

// A store in the lent buffers, which edits write.
// Not store's own struct of them, which is private there and lends them to be read.
#[derive(Drop)]
struct StoreMut<'a> {
    counts: Counts,
    blob: &'a mut [u8],
    directory: &'a mut [u64],
    kinds: &'a mut [u8],
    words: &'a mut [u64],
}

impl StoreMut<'_> {
    ghost use Rattle.history.specs.Stages.{store_in, IsEmpty, KeepsBuffers, RunsEdit};
    ghost use Rattle.history.specs.declared.Ran.{Ran};

    // Makes edit i of the list, and writes its reply.
    fn run_edit(&mut self, edits: EditList<'_>, replies: &mut [u64], i: usize)
        requires ops { 8 * i + 7 < length edits.ops.now }
        requires replies { 2 * i + 1 < length replies.old }
        ensures kept { KeepsBuffers self.old self.new }
        ensures runs { let l = edits.entry in
            let e = edit_at l.ops.now l.dims.now l.text.now l.spans.now i in
            RunsEdit (store_in self.old) e replies.old i (store_in self.new) replies.new }
    {
        let (edit, array) = edits.edit(i);
        let reply = edit_at(
            self.counts,
            self.blob,
            self.directory,
            self.kinds,
            self.words,
            edit,
            array,
        );
        put_reply(reply, replies, REPLY_WIDTH * i);
        self.counts = reply.unwrap_or(self.counts);
    }

    // Runs the edits, each on what the last one left, and answers how many.
    // The replies are no part of the list: it is read, of a type that is copied, and they are written.
    fn run_all(&mut self, edits: EditList<'_>, replies: &mut [u64]) -> u64
        requires { IsEmpty (store_in self.old) }
        ensures kept { KeepsBuffers self.old self.new }
        ensures ends { let l = edits.entry in
            let es = edits_in l.ops.now l.dims.now l.text.now l.spans.now (length replies.old) in
            let s = self.new in
            let r : Ran = record { counts = s.counts; edits = result } in
            Ends (store_in self.old) es replies.old r s.blob.now s.directory.now s.kinds.now s.words.now replies.new }
    {
        let n = (edits.ops.len() / EDIT_WIDTH).min(replies.len() / REPLY_WIDTH);
        for i in 0..n {
            self.run_edit(edits, replies, i);
        }
        n as u64
    }
}

// Runs a list of edits on an empty store in the four buffers. The reply of edit i is two numbers of replies from 2 * i on: the check's
// number and place, 0 and 0 for none. As many edits are run as ops holds and as replies has room for. The error says that the blob cannot
// hold the empty store.
// The buffers are parameters by themselves, as any caller lends them, and as `edit_at` takes them.
pub fn run_edits(
    blob: &mut [u8],
    directory: &mut [u64],
    kinds: &mut [u8],
    words: &mut [u64],
    edits: EditList<'_>,
    replies: &mut [u64],
) -> Result<Ran, MatError>
    ensures { let l = edits.entry in
        let es = edits_in l.ops.now l.dims.now l.text.now l.spans.now (length replies.old) in
        Runs blob.old directory.old kinds.old words.old es replies.old result
        blob.new directory.new kinds.new words.new replies.new }
{
    build_string_filewrapper_metadata(0, blob)?;
    let mut store = StoreMut {
        counts: Counts::EMPTY,
        blob,
        directory,
        kinds,
        words,
    };
    let n = store.run_all(edits, replies);
    Ok(Ran {
        counts: store.counts,
        edits: n,
    })
}
