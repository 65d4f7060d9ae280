// Lists blobs one after another, with an empty line after each. On standard input a blob stands after its length, a little-endian 32-bit
// word whose highest byte is passed over: it is 0 in each. They are the blobs of the recorded listings, then hand-made ones: 39 bytes;
// names with a space, a quote, a backslash and DEL, with each kind of value; an object whose class id is out of range before one with
// properties; a block id out of range and a field type 3; a name whose repaired text has 65,537 bytes, one more than is lent, as a
// property's name, a value and a class; a name longer than the part that is shown at a time; an object of class id 0 whose region begins at
// byte 68, so that its block is found only by rounding from the blob's start; a name whose repaired text has 65,536 bytes, as a class, a
// property's name and a value, and as a class after an empty namespace, whose full stop is one byte too many; a class of 1,401 bytes, each
// of which is escaped, after 61,440 bytes of output, so that as much of the output buffer is left as a chunk of it needs; 5,451 properties,
// the most that a blob of 65,536 bytes can have; no bytes, one byte, and a header alone, which are the shortest blobs that open and the
// shortest that does not.
#![tactic(auto)]

use printing::input::read_full;
use std::io;
use std::io::Read;

// Reads the next blob and lists it, and answers whether there was one.
// The buffer has a fixed size and is cut to the blob: there is no heap.
fn list_next(
    rt: &(impl Print + Eprint),
    input: &mut impl Read,
    blob: &mut [u8],
) -> io::Result<bool> {
    let head: &mut [u8] = &mut [0u8; 4];
    if read_full(input, head)? < 4 {
        return Ok(false);
    }
    let n = u32::from_le_bytes([head[0], head[1], head[2], 0]) as usize;
    if blob.len() < n {
        return Ok(false);
    }
    read_full(input, &mut blob[0..n])?;
    if !printing::list(rt, &blob[0..n]) {
        return Ok(false);
    }
    rt.write_all(b"\n")?;
    Ok(true)
}

fn main(rt: HostRuntime) -> io::Result<()> {
    let blob: &mut [u8] = &mut [0u8; 65536];
    let mut input = rt.reader();
    for _ in 0..64 {
        if !list_next(&rt, &mut input, blob)? {
            break;
        }
    }
    Ok(())
}
