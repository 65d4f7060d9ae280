// Edits a small table of a fuel gauge. Prints the reply of each edit, the number and place of a check or 0 and 0, then the counts, and for each
// object its strings as both ways of reading give them.
#![tactic(auto)]

ghost use Rattle.std.specs.Prelude.{◌≡◌, length};

use history::{EditList, Ran, part, run_edits};
use reader::decode::decode_string;
use reader::saveobj::DecodedSize;
use reader::string_objects::decode_string_object;
use std::io;
use store::counts::Counts;
use text::error::MatError;
use writer::string_object::create_string_object_metadata;

// The objects that the buffers have room for.
const MOST_OBJECTS: u32 = 5;

// The reply of each of the edits.
fn print_replies(rt: &impl Print, replies: &[u64]) -> io::Result<()> {
    for (i, [number, place]) in replies.as_chunks::<2>().0.iter().enumerate() {
        println!(rt; "edit {i}: {number} {place}")?;
    }
    Ok(())
}

// Each string between quotes.
fn print_strings(rt: &impl Print, text: &[u8], spans: &[u64]) -> io::Result<()> {
    for [offset, len] in spans.as_chunks::<2>().0 {
        rt.write_all(b" \"")?;
        rt.write_all(part(text, *offset, *len))?;
        rt.write_all(b"\"")?;
    }
    println!(rt)
}

// The buffers have a fixed size and are cut to what was written, here and in print_run: there is no heap.
fn print_read(
    rt: &impl Print,
    reply: Result<DecodedSize, MatError>,
    text: &[u8],
    spans: &[u64],
) -> io::Result<()> {
    match reply {
        Ok(size) => {
            if size.strings <= spans.len() / 2 {
                print_strings(rt, text, &spans[0..2 * size.strings])?;
            }
            Ok(())
        }
        Err(e) => println!(rt; " {e}"),
    }
}

// Zeros. The `ensures` gives only the length, so that no goal has the zeros one by one.
// printing has the same, and is no crate that this program stands on.
fn text_buffer() -> [u8; 4096]
    ensures { 4096 ≡ length result }
{
    [0; 4096]
}

// A store's buffers, or what the counts say of them.
// Of this program: store's own struct of them is private.
#[derive(Clone, Copy)]
struct Store<'a> {
    blob: &'a [u8],
    directory: &'a [u64],
    kinds: &'a [u8],
    words: &'a [u64],
}

impl<'a> Store<'a> {
    // The parts that the counts say.
    fn counted(self, counts: Counts) -> Store<'a> {
        Store {
            blob: part(self.blob, 0, counts.blob_bytes),
            directory: part(self.directory, 0, counts.objects.saturating_mul(2)),
            kinds: part(self.kinds, 0, counts.objects),
            words: part(self.words, 0, counts.words),
        }
    }

    // The strings of an object, by its metadata and by its own property.
    fn print_object(self, rt: &impl Print, id: u32) -> io::Result<()> {
        let Store {
            blob,
            directory,
            kinds,
            words,
        } = self;
        let text: &mut [u8] = &mut text_buffer();
        let spans: &mut [u64] = &mut [0; 16];
        let metadata = create_string_object_metadata(id);
        let by_metadata = decode_string(blob, directory, kinds, words, &metadata, text, spans);
        print!(rt; "object {id} by metadata:")?;
        print_read(rt, by_metadata, text, spans)?;
        let by_property = decode_string_object(blob, directory, kinds, words, id, text, spans);
        print!(rt; "object {id} by property:")?;
        print_read(rt, by_property, text, spans)
    }

    // The objects of a store that is cut to its counts, at most as many as the sample has room for.
    fn print_objects(self, rt: &impl Print) -> io::Result<()> {
        for id in 1..=MOST_OBJECTS {
            if self.kinds.len() < id as usize {
                break;
            }
            self.print_object(rt, id)?;
        }
        Ok(())
    }
}

// The edits, as run_edits takes them: eight numbers each, its kind, its object id, and the offset and length of its dimensions, its text and
// its spans.
const OPS: [[u64; 8]; 10] = [
    // Appends "0 L", "184.5", and two strings.
    [0, 0, 0, 2, 0, 3, 0, 2],
    [0, 0, 0, 2, 3, 5, 2, 2],
    [0, 0, 2, 2, 8, 17, 4, 4],
    // A longer string for object 1, and a shorter one, cut from the whole text, for object 2.
    [1, 1, 0, 2, 25, 11, 8, 2],
    [1, 2, 0, 2, 0, 40, 10, 2],
    // Refused: no object 4, ill-formed text, one string for two by two, and more words than there are.
    [1, 4, 0, 2, 0, 3, 0, 2],
    [0, 0, 0, 2, 38, 2, 12, 2],
    [0, 0, 4, 2, 0, 3, 0, 2],
    [0, 0, 0, 2, 0, 3, 0, 2],
    // Appends an array of no strings.
    [0, 0, 6, 2, 0, 0, 0, 0],
];

fn print_run(rt: &impl Print, ran: Ran, store: Store<'_>, replies: &[u64]) -> io::Result<()> {
    print_replies(rt, replies)?;
    println!(rt;
        "objects {}, blob bytes {}, words {}",
        ran.counts.objects, ran.counts.blob_bytes, ran.counts.words
    )?;
    store.counted(ran.counts).print_objects(rt)
}

fn main(rt: HostRuntime) -> io::Result<()> {
    let blob: &mut [u8] = &mut [0; 400];
    let directory: &mut [u64] = &mut [0; 10];
    let kinds: &mut [u8] = &mut [0; 5];
    let words: &mut [u64] = &mut [0; 28];
    let replies: &mut [u64] = &mut [0; 20];
    let ops: &[u64] = OPS.as_flattened();
    let dims: &[u64] = &[1, 1, 1, 2, 2, 2, 2, 0];
    let text: &[u8] = b"0 L184.5F\xC3\xBCllstand\xE2\x9B\xBD\xF0\x9F\x9A\x97184.5 Liter37A\xFF";
    let spans: &[u64] = &[0, 3, 0, 5, 0, 10, 10, 7, 0, 11, 36, 2, 0, 2];
    let edits = EditList {
        ops,
        dims,
        text,
        spans,
    };
    match run_edits(blob, directory, kinds, words, edits, replies) {
        Ok(ran) => {
            let store = Store {
                blob,
                directory,
                kinds,
                words,
            };
            print_run(&rt, ran, store, replies)
        }
        Err(e) => println!(rt; " {e}"),
    }
}
