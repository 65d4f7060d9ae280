// The fields of a line, with spaces between them, and what they hold.
ghost use Rattle.std.specs.Prelude.{◌≡◌, length};

use crate::list::{self, List};
use crate::render::{Fault, Said};
use std::fmt::{Display, Write};
use store::array::StringArray;
use store::counts::Counts;
use text::error::MatError;

// The longest line. No answer is longer than its line, so the calls have buffers of as many elements. An argument in shorthand that does
// not fit one is unreadable.
pub const LINE: usize = 4096;

// Zeros. The `ensures` gives only the length, so that no goal has the zeros one by one.
// printing's buffer does the same and is private there, and this program does not stand on printing.
pub fn zeros<T: Copy + Default>() -> [T; LINE]
    ensures { 4096 ≡ length result }
{
    [T::default(); LINE]
}

// Buffers for a store.
#[derive(PartialEq, Eq, Drop)]
pub struct Buffers {
    blob: [u8; LINE],
    directory: [u64; LINE],
    kinds: [u8; LINE],
    words: [u64; LINE],
}

impl Buffers {
    pub fn new() -> Buffers {
        Buffers {
            blob: zeros(),
            directory: zeros(),
            kinds: zeros(),
            words: zeros(),
        }
    }
}

// As much of them as a line lends. A struct of this program: store's and history's are private to them.
#[derive(Drop)]
pub struct Store<'a> {
    pub blob: &'a mut [u8],
    pub directory: &'a mut [u64],
    pub kinds: &'a mut [u8],
    pub words: &'a mut [u64],
}

// The fields that are left of a line.
#[derive(Clone, Copy)]
pub struct Fields<'a> {
    rest: &'a [u8],
}

impl<'a> Fields<'a> {
    pub fn new(line: &'a [u8]) -> Fields<'a> {
        Fields { rest: line }
    }

    // Takes the next field, empty where none is left.
    pub fn take(&mut self) -> &'a [u8] {
        let line = self.rest;
        let end = line
            .iter()
            .position(|byte| *byte == b' ')
            .unwrap_or(line.len());
        let (field, rest) = line.split_at(end);
        let spaces = rest
            .iter()
            .position(|byte| *byte != b' ')
            .unwrap_or(rest.len());
        self.rest = &rest[spaces..];
        field
    }

    // A number in base 10.
    // This and the next that read a field say each which of list's readers does: a common frame would take it as a closure that lends the
    // buffer on, for one line.
    pub fn number<T: TryFrom<usize>>(&mut self) -> Result<T, Fault>
    where
        T::Error: Drop,
    {
        list::number(self.take(), 10).ok_or(Fault::Unreadable)
    }

    // As much of a buffer as a number says.
    pub fn lent<'b, T>(&mut self, buffer: &'b mut [T]) -> Result<&'b mut [T], Fault> {
        let length: usize = self.number()?;
        buffer.get_mut(..length).ok_or(Fault::Unreadable)
    }

    // Bytes, at the start of a buffer.
    pub fn bytes<'b>(&mut self, buffer: &'b mut [u8]) -> Result<&'b mut [u8], Fault> {
        list::bytes(self.take(), buffer).ok_or(Fault::Unreadable)
    }

    // Words of 64 bits, in the same way.
    pub fn words<'b>(&mut self, buffer: &'b mut [u64]) -> Result<&'b mut [u64], Fault> {
        list::words(self.take(), buffer).ok_or(Fault::Unreadable)
    }

    // Code units or words of 32 bits, in the same way.
    pub fn units<'b, T: Copy + TryFrom<usize>>(
        &mut self,
        buffer: &'b mut [T],
    ) -> Result<&'b mut [T], Fault>
    where
        T::Error: Drop,
    {
        list::units(self.take(), buffer).ok_or(Fault::Unreadable)
    }

    // Each byte as often as a number says, in the same way.
    pub fn repeated<'b>(
        &mut self,
        bytes: [u8; 3],
        buffer: &'b mut [u8],
    ) -> Result<&'b mut [u8], Fault> {
        let mut list = List::new(buffer);
        for byte in bytes {
            list.push_times(byte, self.number()?)
                .ok_or(Fault::Unreadable)?;
        }
        Ok(list.into_slice())
    }

    // BLOB DIRECTORY KINDS WORDS
    pub fn store<'b>(&mut self, buffers: &'b mut Buffers) -> Result<Store<'b>, Fault> {
        let Buffers {
            blob,
            directory,
            kinds,
            words,
        } = buffers;
        Ok(Store {
            blob: self.bytes(blob)?,
            directory: self.words(directory)?,
            kinds: self.bytes(kinds)?,
            words: self.words(words)?,
        })
    }

    // objects bytes words
    pub fn counts(&mut self) -> Result<Counts, Fault> {
        Ok(Counts {
            objects: self.number()?,
            blob_bytes: self.number()?,
            words: self.number()?,
        })
    }

    // TEXT SPANS DIMS
    pub fn array<'b>(
        &mut self,
        text: &'b mut [u8],
        spans: &'b mut [u64],
        dims: &'b mut [u64],
    ) -> Result<StringArray<'b>, Fault> {
        Ok(StringArray {
            text: self.bytes(text)?,
            spans: self.words(spans)?,
            dims: self.words(dims)?,
        })
    }

    // Holds an answer to what the line says from here on.
    pub fn says(self, answer: impl Display + Drop) -> Result<(), Fault> {
        let rest = self.rest.strip_prefix(b"= ").ok_or(Fault::Unreadable)?;
        let mut said = Said { rest };
        write!(said, "{answer} #").map_err(|_| Fault::Differs)
    }

    // The same of a refusal, which must leave what was lent as it was.
    pub fn refuses(self, error: MatError, is_kept: bool) -> Result<(), Fault> {
        if !is_kept {
            return Err(Fault::Differs);
        }
        let failure = error.failure();
        self.says(format_args!("no {} {}", failure.number, failure.place))
    }
}
