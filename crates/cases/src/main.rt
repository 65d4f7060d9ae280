// Runs the examples that are not proved as cases: those of the Unicode Standard, chapter 3, and document 01's unstarred ones. Each line is
// the input and what the library makes of it; bytes and code units are hexadecimal.
#![tactic(auto)]

mod print;

use print::{Bytes, Units};
use reader::file_wrapper::FileWrapper;
use std::io;

fn main(rt: HostRuntime) -> io::Result<()> {
    of_utf8(&rt)?;
    of_utf16(&rt)?;
    of_writer(&rt)?;
    of_reader(&rt)?;
    of_names(&rt)
}

fn of_utf8(rt: &impl Print) -> io::Result<()> {
    // D92: the code points 004D 0430 4E8C 10302.
    show(
        rt,
        "well-formed",
        b"\x4D\xD0\xB0\xE4\xBA\x8C\xF0\x90\x8C\x82",
    )?;
    show(rt, "well-formed", b"\xF4\x80\x83\x92")?;
    show(rt, "a genuine U+FFFD", b"\xEF\xBF\xBD")?;
    show(rt, "C0 starts nothing", b"\xC0\xAF")?;
    show(rt, "E0 9F", b"\xE0\x9F\x80")?;
    show(rt, "Table 3-8", b"\xC0\xAF\xE0\x80\xBF\xF0\x81\x82\x41")?;
    show(rt, "Table 3-9", b"\xED\xA0\x80\xED\xBF\xBF\xED\xAF\x41")?;
    show(rt, "Table 3-10", b"\xF4\x91\x92\x93\xFF\x41\x80\xBF\x42")?;
    show(rt, "Table 3-11", b"\xE1\x80\xE2\xF0\x91\x92\xF1\xBF\x41")?;
    show(rt, "nothing", b"")
}

fn of_utf16(rt: &impl Print) -> io::Result<()> {
    // D91: the same code points.
    units(
        rt,
        "well-formed",
        &[0x004D, 0x0430, 0x4E8C, 0xD800, 0xDF02],
        &mut [0; 10],
    )?;
    units(
        rt,
        "one byte short",
        &[0x004D, 0x0430, 0x4E8C, 0xD800, 0xDF02],
        &mut [0; 9],
    )?;
    units(rt, "high alone", &[0x0041, 0xD800], &mut [0; 16])?;
    units(rt, "low first", &[0xDC00, 0xD800], &mut [0; 16])?;
    units(rt, "high, then no low", &[0xD800, 0x0041], &mut [0; 16])?;
    units(rt, "29 before 34", &[0x0041, 0xDFFF], &mut [0; 0])?;
    units(rt, "nothing", &[], &mut [0; 0])
}

fn of_writer(rt: &impl Print) -> io::Result<()> {
    // A program has no room for 16,777,200 bytes; 34 shows that 32 passed.
    build(rt, "no objects", 0, &mut [0; 144])?;
    build(rt, "one byte short", 2, &mut [0; 239])?;
    build(rt, "most objects", 349522, &mut [0; 16])?;
    build(rt, "too many objects", 349523, &mut [0; 16])
}

// No bytes, too few for a header, and headers alone, all offsets 40: the name heap is one empty piece.
fn of_reader(rt: &impl Print) -> io::Result<()> {
    open(rt, "no bytes", b"")?;
    open(rt, "39 bytes", &[0; 39])?;
    open(
        rt,
        "one name",
        b"\x04\0\0\0\x01\0\0\0\x28\0\0\0\x28\0\0\0\x28\0\0\0\x28\0\0\0\x28\0\0\0\x28\0\0\0\x28\0\0\0\x28\0\0\0",
    )?;
    open(
        rt,
        "two names",
        b"\x04\0\0\0\x02\0\0\0\x28\0\0\0\x28\0\0\0\x28\0\0\0\x28\0\0\0\x28\0\0\0\x28\0\0\0\x28\0\0\0\x28\0\0\0",
    )?;
    open(
        rt,
        "version 0",
        b"\0\0\0\0\x01\0\0\0\x28\0\0\0\x28\0\0\0\x28\0\0\0\x28\0\0\0\x28\0\0\0\x28\0\0\0\x28\0\0\0\x28\0\0\0",
    )?;
    open(
        rt,
        "version 2",
        b"\x02\0\0\0\x01\0\0\0\x28\0\0\0\x28\0\0\0\x28\0\0\0\x28\0\0\0\x28\0\0\0\x28\0\0\0\x28\0\0\0\x28\0\0\0",
    )?;
    open(
        rt,
        "version 4294967295",
        b"\xFF\xFF\xFF\xFF\x01\0\0\0\x28\0\0\0\x28\0\0\0\x28\0\0\0\x28\0\0\0\x28\0\0\0\x28\0\0\0\x28\0\0\0\x28\0\0\0",
    )?;
    // Offsets 6 and 7 are 0 in blobs of version 2 that are still about.
    open(
        rt,
        "offsets that fall",
        b"\x02\0\0\0\x01\0\0\0\x28\0\0\0\x28\0\0\0\x28\0\0\0\x28\0\0\0\x28\0\0\0\x28\0\0\0\0\0\0\0\0\0\0\0",
    )
}

// A blob with names alone: a sound one, one cut off, one of two ill-formed parts, a genuine U+FFFD, and that before an ill-formed part.
const NAMES: [u8; 59] =
    *b"\x04\0\0\0\x05\0\0\0\x3B\0\0\0\x3B\0\0\0\x3B\0\0\0\x3B\0\0\0\x3B\0\0\0\x3B\0\0\0\x3B\0\0\0\x3B\0\0\0ok\0\xF4\x80\x80\0\xE0\x80\0\xEF\xBF\xBD\0\xEF\xBF\xBD\xFF\0";

fn of_names(rt: &impl Print) -> io::Result<()> {
    resolve(rt, "the empty name", 0)?;
    resolve(rt, "a sound name", 1)?;
    resolve(rt, "F4 80 80", 2)?;
    resolve(rt, "E0 80", 3)?;
    resolve(rt, "EF BF BD", 4)?;
    resolve(rt, "EF BF BD FF", 5)?;
    resolve(rt, "no name", 6)
}

// The five from here on each take the runtime and a label: a struct of the two would be made anew for each line that they print. Each match
// prints a value of its own, one println! an arm: a common one would take both as closures.

// A text: its repaired text and how many parts of it were replaced, and the position of the first ill-formed part.
fn show(rt: &impl Print, label: &str, bytes: &[u8]) -> io::Result<()> {
    print!(rt; "{label}:{}", Bytes(bytes))?;
    let mut out = [0u8; 64];
    match text::utf8::write_lossy(bytes, &mut out) {
        Ok(size) => print!(rt;
            " ->{}, replaced {}",
            Bytes(&out[..size.bytes]),
            size.replaced
        )?,
        Err(e) => print!(rt; " {e}")?,
    }
    match text::utf8::validate(bytes) {
        Ok(()) => println!(rt; ", well-formed"),
        Err(e) => println!(rt; ", ill-formed at {}", e.valid_up_to),
    }
}

// Code units: their text in a buffer, or the refusal.
fn units(rt: &impl Print, label: &str, list: &[u16], out: &mut [u8]) -> io::Result<()> {
    print!(rt; "{label}:{}", Units(list))?;
    match text::utf16::decode_utf16(list, out) {
        Ok(n) => println!(rt; " ->{}", Bytes(&out[..n])),
        Err(e) => println!(rt; " {e}"),
    }
}

// The metadata blob for a number of objects in a buffer: its length, or the refusal.
fn build(rt: &impl Print, label: &str, objects: u64, out: &mut [u8]) -> io::Result<()> {
    match writer::string_object::build_string_filewrapper_metadata(objects, out) {
        Ok(n) => println!(rt; "{label}: {objects} -> bytes {n}"),
        Err(e) => println!(rt; "{label}: {objects} {e}"),
    }
}

// A blob: the names that it declares, or the refusal.
fn open(rt: &impl Print, label: &str, blob: &[u8]) -> io::Result<()> {
    match FileWrapper::parse(blob) {
        Ok(w) => println!(rt; "{label}: names {}", w.names),
        Err(e) => println!(rt; "{label}: {e}"),
    }
}

// A name of the blob: its text and the replacement characters that were put into it, or the refusal.
fn resolve(rt: &impl Print, label: &str, index: u32) -> io::Result<()> {
    let mut out = [0u8; 64];
    match reader::names::name(&NAMES, index, &mut out) {
        Ok(size) => println!(rt;
            "{label}:{}, replaced {}",
            Bytes(&out[..size.bytes]),
            size.replaced
        ),
        Err(e) => println!(rt; "{label}: {e}"),
    }
}
