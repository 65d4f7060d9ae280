// Makes the table of ISO 8859-15 from its rule and prints it: 256 lines from byte 0 up, each with the byte as two hexadecimal digits, a
// space and the code point as four.
#![tactic(auto)]

ghost use Rattle.std.specs.Prelude.{◌≡◌};
ghost use Rattle.text.specs.Latin9.{code_point};

use std::io;

// The rule: equal to the byte, with eight exceptions.
#[tactic(auto, using(text::proofs::Latin9Laws::point_cases))]
fn code_point(byte: u8) -> u32
    ensures { result ≡ code_point byte }
{
    match byte {
        0xA4 => 0x20AC,
        0xA6 => 0x0160,
        0xA8 => 0x0161,
        0xB4 => 0x017D,
        0xB8 => 0x017E,
        0xBC => 0x0152,
        0xBD => 0x0153,
        0xBE => 0x0178,
        _ => u32::from(byte),
    }
}

fn print_line(rt: &impl Print, byte: u8) -> io::Result<()> {
    let code = code_point(byte);
    println!(rt; "{byte:02x} {code:04x}")
}

fn main(rt: HostRuntime) -> io::Result<()> {
    for byte in 0..=255u8 {
        print_line(&rt, byte)?;
    }
    Ok(())
}
