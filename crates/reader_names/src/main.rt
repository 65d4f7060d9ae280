// Shows damaged names: the repaired text of a name on standard input, of at most 4,096 bytes, and how many ill-formed parts of it were
// replaced; then a label for each name of a sample, as a screen that repairs nothing shows it.
#![tactic(auto)]

use printing::input::read_full;
use reader::file_wrapper::FileWrapper;
use reader::labels;
use std::io;

// A blob with no classes and no objects and three names: a sound one, an empty one, and one whose last character is cut off.
const SAMPLE: [u8; 60] =
    *b"\x04\0\0\0\x03\0\0\0\x3C\0\0\0\x3C\0\0\0\x3C\0\0\0\x3C\0\0\0\x3C\0\0\0\x3C\0\0\0\x3C\0\0\0\x3C\0\0\0Tankgeber\0\0Pegel \xE2\x84\0";

// The buffer of a label, and the label.
fn print_label<'a>(
    rt: &impl Print,
    blob: &'a [u8],
    placeholder: &'a [u8],
    index: u32,
) -> io::Result<()> {
    print!(rt; "label {index}")?;
    match labels::label_source(blob, placeholder, index) {
        Ok(part) => print!(rt; " {} ", part.source)?,
        Err(e) => print!(rt; " {e}")?,
    }
    rt.write_all(labels::label(blob, placeholder, index))?;
    println!(rt)
}

fn print_labels<'a>(
    rt: &impl Print,
    blob: &'a [u8],
    placeholder: &'a [u8],
    names: u32,
) -> io::Result<()> {
    for index in 0..=names {
        print_label(rt, blob, placeholder, index)?;
    }
    Ok(())
}

// Buffers of a fixed size, cut to what is read or written: there is no heap.
fn print_repaired(rt: &(impl Input + Print)) -> io::Result<()> {
    let name: &mut [u8] = &mut [0u8; 4096];
    let n = read_full(&mut rt.reader(), name)?;
    let mut shown = [0u8; 12288];
    match text::utf8::write_lossy(&name[..n], &mut shown) {
        Ok(size) => {
            rt.write_all(&shown[..size.bytes])?;
            println!(rt; "\nreplaced {}", size.replaced)
        }
        Err(e) => println!(rt; "too long: {}", e.failure().place),
    }
}

fn main(rt: HostRuntime) -> io::Result<()> {
    print_repaired(&rt)?;
    match FileWrapper::parse(&SAMPLE) {
        Ok(w) => print_labels(&rt, &SAMPLE, b"(unnamed)", w.names),
        Err(e) => println!(rt; "sample {e}"),
    }
}
