// Standard output by way of a buffer.
ghost use Rattle.std.specs.Prelude.{◌≡◌, ◌+◌, ◌≤◌, ◌<◌, length};
ghost use Rattle.printing.specs.Lines.{escaped, line_text};
ghost use Rattle.printing.specs.Output.{start_of, Adds};

use crate::lines::{LinePart, write_escaped, write_part};
use std::io;
use text::error::MatError;

// Room for what is put into the buffer at a time: a part of a line, or a chunk of a name.
const ROOM: usize = 4096;

// The most bytes of a name in a chunk: each is shown by three at most.
const CHUNK: usize = 1365;

// Zeros. The `ensures` gives only the length, so that no goal has the zeros one by one.
pub(crate) fn buffer<T: Copy + Default, const N: usize>() -> [T; N]
    ensures { N ≡ length result }
{
    [T::default(); N]
}

// Tells on standard error that reading or writing failed.
pub(crate) fn tell(rt: &impl Eprint, stream: &str, error: &io::Error) {
    let _ = rt.eprintln(format_args!("{stream}: {error}"));
}

// Writes bytes, and answers whether they were written: where they were not, that is told.
fn written(rt: &(impl Print + Eprint), bytes: &[u8]) -> bool {
    rt.write_all(bytes)
        .map_err(|error| tell(rt, "standard output", &error))
        .is_ok()
}

// A lent buffer, how many of its bytes are still to be written, and whether a write failed. After that nothing is written any more. The
// buffer has room for every text once it is empty.
// A flag and no Result: each put promises what the buffer holds also after a write that failed, where `?` would have returned.
#[derive(Drop)]
pub(crate) struct Output<'a, R> {
    rt: &'a R,
    pub(crate) out: &'a mut [u8],
    pub(crate) used: usize,
    pub(crate) failed: bool,
    ghost size: { 4096 ≤ length out.now },
    ghost inside: { used ≤ length out.now },
}

impl<'a, R: Print + Eprint> Output<'a, R> {
    pub(crate) fn new(rt: &'a R, out: &'a mut [u8]) -> Output<'a, R>
        requires { 4096 ≤ length out.old }
    {
        Output {
            rt,
            out,
            used: 0,
            failed: false,
        }
    }

    // Writes what the buffer holds.
    fn flush(&mut self)
        ensures used { self.new.used ≡ 0 }
        ensures kept { self.new.out.now ≡ self.old.out.now }
    {
        let used = self.used;
        self.used = 0;
        if self.failed {
            return;
        }
        // Lent to be written, though it is only read: of a buffer of self that is lent to be read, the check forgets what it holds.
        let part = &mut self.out[0..used];
        self.failed = !written(self.rt, part);
    }

    // Writes the rest, and answers whether all was written: a bool, since the error was told when it came.
    pub(crate) fn finish(&mut self) -> bool {
        self.flush();
        !self.failed
    }

    // Makes room for a text.
    fn make_room(&mut self)
        ensures place { self.new.used ≡ start_of self.old.out.now self.old.used }
        ensures kept { self.new.out.now ≡ self.old.out.now }
        ensures room { self.new.used + 4096 ≤ length self.new.out.now }
    {
        if ROOM <= self.out.len() - self.used {
            return;
        }
        self.flush();
    }

    // Puts a part of a line after what the buffer holds. It has at most 29 bytes, so that it is never refused.
    pub(crate) fn put_part(&mut self, part: LinePart)
        ensures { Adds (line_text part) self.old.out.now self.old.used self.new.out.now self.new.used }
    {
        self.make_room();
        let used = self.used;
        let n = write_part(part, &mut self.out[used..]).unwrap_or(0);
        self.used += n;
    }

    // The rest of a line: the number of a check that did not hold.
    pub(crate) fn put_refusal(&mut self, error: MatError) {
        self.put_part(LinePart::Refused(error.failure().number));
    }

    // Puts a chunk of a name, as a line shows it: three bytes show a byte, so that it is never refused.
    // The steps of put_part: a common one would take the write as a closure and its promise as a parameter, for four lines.
    fn put_chunk(&mut self, chunk: &[u8])
        requires { length chunk.now ≤ 1365 }
        ensures { Adds (escaped chunk.now) self.old.out.now self.old.used self.new.out.now self.new.used }
    {
        self.make_room();
        let used = self.used;
        let n = write_escaped(chunk, &mut self.out[used..]).unwrap_or(0);
        self.used += n;
    }

    // A name between quotes: its chunks, all of them if no write fails.
    pub(crate) fn put_name(&mut self, name: &[u8]) {
        self.put_part(LinePart::Quote);
        for chunk in name.chunks(CHUNK) {
            if self.failed {
                break;
            }
            self.put_chunk(chunk);
        }
        self.put_part(LinePart::Quote);
    }
}
