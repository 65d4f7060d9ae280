// Bytes and code units in hexadecimal.
use std::fmt::{self, Display, Formatter, Write};

// Each byte as a space and two digits.
#[derive(Clone, Copy)]
pub struct Bytes<'a>(pub &'a [u8]);

impl Display for Bytes<'_> {
    fn fmt<W: Write>(&self, f: &mut Formatter<W>) -> fmt::Result {
        for byte in self.0 {
            write!(f, " {byte:02x}")?;
        }
        Ok(())
    }
}

// Each unit as a space and four digits.
// Beside Bytes for the width, which stands in the format itself.
#[derive(Clone, Copy)]
pub struct Units<'a>(pub &'a [u16]);

impl Display for Units<'_> {
    fn fmt<W: Write>(&self, f: &mut Formatter<W>) -> fmt::Result {
        for unit in self.0 {
            write!(f, " {unit:04x}")?;
        }
        Ok(())
    }
}
