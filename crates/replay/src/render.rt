// What a line says, and answers as a line has them.
use std::convert::AsSlice;
use std::fmt::{self, Display, Formatter, Write};
use text::latin9::code_point;

// Why a line does not agree.
#[derive(Clone, Copy, Debug, PartialEq, Eq)]
pub enum Fault {
    Differs,
    Unreadable,
    Unknown,
}

impl Display for Fault {
    fn fmt<W: Write>(&self, f: &mut Formatter<W>) -> fmt::Result {
        f.write_str(match self {
            Fault::Differs => "differs",
            Fault::Unreadable => "unreadable",
            Fault::Unknown => "unknown",
        })
    }
}

// What is left of a line's answer. What is written to it must come next there.
#[derive(Drop)]
pub struct Said<'a> {
    pub rest: &'a [u8],
}

impl Write for Said<'_> {
    fn write_str(&mut self, text: &str) -> fmt::Result {
        self.rest = self.rest.strip_prefix(text.as_bytes()).ok_or(fmt::Error)?;
        Ok(())
    }
}

// Whether a buffer still holds zeros alone, as it did before the call.
pub fn is_blank<T: Default + PartialEq + Drop>(buffer: &[T]) -> bool {
    buffer.iter().all(|item| *item == T::default())
}

// The first n elements of a buffer. A call that wrote past them agrees with no line.
pub fn written<T: Default + PartialEq + Drop>(buffer: &[T], n: usize) -> Result<&[T], Fault> {
    let (written, rest) = buffer.split_at_checked(n).ok_or(Fault::Differs)?;
    if is_blank(rest) {
        Ok(written)
    } else {
        Err(Fault::Differs)
    }
}

// Bytes of two digits, `-` for none.
#[derive(Clone, Copy)]
pub struct Bytes<'a>(pub &'a [u8]);

impl Display for Bytes<'_> {
    fn fmt<W: Write>(&self, f: &mut Formatter<W>) -> fmt::Result {
        if self.0.is_empty() {
            return f.write_str("-");
        }
        for byte in self.0 {
            write!(f, "{byte:02x}")?;
        }
        Ok(())
    }
}

// Words in hexadecimal with commas between them, `-` for none.
#[derive(Clone, Copy)]
pub struct Words<'a>(pub &'a [u64]);

impl Display for Words<'_> {
    fn fmt<W: Write>(&self, f: &mut Formatter<W>) -> fmt::Result {
        let Some((first, others)) = self.0.split_first() else {
            return f.write_str("-");
        };
        write!(f, "{first:x}")?;
        for word in others {
            write!(f, ",{word:x}")?;
        }
        Ok(())
    }
}

// Numbers with commas between them.
#[derive(Clone, Copy)]
struct Numbers<'a>(&'a [u32]);

impl Display for Numbers<'_> {
    fn fmt<W: Write>(&self, f: &mut Formatter<W>) -> fmt::Result {
        for (i, number) in self.0.iter().enumerate() {
            let comma = if i == 0 { "" } else { "," };
            write!(f, "{comma}{number}")?;
        }
        Ok(())
    }
}

// Rows, the first after a space and each other after a semicolon.
#[derive(Clone, Copy)]
pub struct Rows<'a, T>(pub &'a [T]);

impl<T: AsSlice<u32>> Display for Rows<'_, T> {
    fn fmt<W: Write>(&self, f: &mut Formatter<W>) -> fmt::Result {
        for (i, row) in self.0.iter().enumerate() {
            let mark = if i == 0 { ' ' } else { ';' };
            let numbers = Numbers(row.as_slice());
            write!(f, "{mark}{numbers}")?;
        }
        Ok(())
    }
}

// Lines of the table of ISO 8859-15, their ends as a line has them.
#[derive(Clone, Copy)]
pub struct Table {
    pub first: usize,
    pub last: u8,
}

impl Display for Table {
    fn fmt<W: Write>(&self, f: &mut Formatter<W>) -> fmt::Result {
        for byte in self.first..=usize::from(self.last) {
            let code = code_point(byte as u8);
            write!(f, "{byte:02x} {code:04x}\\n")?;
        }
        Ok(())
    }
}
