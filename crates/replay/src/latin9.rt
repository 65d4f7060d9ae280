// The recorded exports to ISO 8859-15 and imports from it, and the lines of its table.
use crate::calls::says_bytes;
use crate::fields::{Fields, zeros};
use crate::render::{Fault, Table, is_blank};
use text::error::MatError;
use text::latin9::{export_latin9, import_latin9};

// BYTES length, where a call converts them.
fn converted<F: FnOnce(&[u8], &mut [u8]) -> Result<usize, MatError>>(
    mut fields: Fields<'_>,
    convert: F,
) -> Result<(), Fault>
    requires { F.IsAlwaysCallable convert }
{
    let (mut source, mut out) = (zeros(), zeros());
    let source = fields.bytes(&mut source)?;
    let out = fields.lent(&mut out)?;
    says_bytes(fields, convert(source, out), out)
}

// export TEXT length
pub fn export(fields: Fields<'_>) -> Result<(), Fault> {
    converted(fields, export_latin9)
}

// import BYTES length
pub fn import(fields: Fields<'_>) -> Result<(), Fault> {
    converted(fields, import_latin9)
}

// table first last, by the table that the two calls go by. It has no lines where first is above last, past 255 too.
pub fn table(mut fields: Fields<'_>) -> Result<(), Fault> {
    let first = fields.number()?;
    let last = fields.number()?;
    let table = Table { first, last };
    fields.says(format_args!("ok {table}"))
}

// importneed text-length ones twos threes: so many bytes whose characters have one, two and three bytes in UTF-8. The answer has no text.
pub fn importneed(mut fields: Fields<'_>) -> Result<(), Fault> {
    let (mut text, mut source) = (zeros(), zeros());
    let text = fields.lent(&mut text)?;
    let source = fields.repeated([0x41, 0xE9, 0xA4], &mut source)?;
    match import_latin9(source, text) {
        Ok(_) => fields.says("ok"),
        Err(e) => fields.refuses(e, is_blank(text)),
    }
}
