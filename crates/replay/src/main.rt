// Makes the recorded calls of standard input anew, a call a line, and counts those whose answers agree. Every other line is printed.
#![tactic(auto)]

mod call;
mod calls;
mod edits;
mod fields;
mod labels;
mod latin9;
mod list;
mod render;

use call::Call;
use fields::{Fields, LINE, zeros};
use render::Fault;
use std::io::{self, Read};

// How many reads there are at most.
const READS: u32 = 1048576;

// How many bytes are printed of a line that does not agree.
const SHOWN: usize = 160;

// How many lines record a call, and how many of them agree.
#[derive(Clone, Copy, Default)]
struct Tally {
    agreed: u64,
    seen: u64,
}

// Those of each call, and how many lines record none.
#[derive(Drop)]
struct Tallies {
    calls: [Tally; Call::COUNT],
    other: u64,
}

impl Tallies {
    fn new() -> Tallies {
        Tallies {
            calls: [Tally::default(); Call::COUNT],
            other: 0,
        }
    }

    // Counts a line that records no call. No input is so long that a count wraps.
    fn add_other(&mut self) {
        self.other = self.other.wrapping_add(1);
    }

    // Makes the call of a line anew, and counts it.
    fn replay(&mut self, line: &[u8]) -> Result<(), Fault> {
        let mut fields = Fields::new(line);
        let Some(call) = Call::named(fields.take()) else {
            self.add_other();
            return Err(Fault::Unknown);
        };
        let tally = &mut self.calls[call as usize];
        tally.seen = tally.seen.wrapping_add(1);
        call.replay(fields)?;
        tally.agreed = tally.agreed.wrapping_add(1);
        Ok(())
    }

    fn print(&self, rt: &impl Print) -> io::Result<()> {
        for (call, tally) in Call::ALL.iter().zip(self.calls.iter()) {
            println!(rt; "{} {} of {}", call.name(), tally.agreed, tally.seen)?;
        }
        println!(rt; "other {}", self.other)
    }
}

// The line that is read, of which `filled` bytes came: those that do not fit are dropped.
// Fixed memory, so that the line is no vector; list.rt's List counts none of those that do not fit.
#[derive(Drop)]
struct Replay {
    line: [u8; LINE],
    filled: usize,
    tallies: Tallies,
}

impl Replay {
    fn new() -> Replay {
        Replay {
            line: zeros(),
            filled: 0,
            tallies: Tallies::new(),
        }
    }

    // Replays the line, and prints why it does not agree and its start. One that does not fit is unreadable.
    fn end_line(&mut self, rt: &impl Print) -> io::Result<()> {
        let filled = self.filled;
        self.filled = 0;
        let line = &self.line[..filled.min(LINE)];
        let verdict = if filled <= LINE {
            self.tallies.replay(line)
        } else {
            self.tallies.add_other();
            Err(Fault::Unreadable)
        };
        if let Err(fault) = verdict {
            print!(rt; "{fault}: ")?;
            rt.write_all(&line[..line.len().min(SHOWN)])?;
            println!(rt)?;
        }
        Ok(())
    }

    // Adds a byte to the line, or ends it.
    fn add(&mut self, rt: &impl Print, byte: u8) -> io::Result<()> {
        if byte == b'\n' {
            return self.end_line(rt);
        }
        if let Some(place) = self.line.get_mut(self.filled) {
            *place = byte;
        }
        self.filled = self.filled.saturating_add(1);
        Ok(())
    }

    // Reads once, and answers whether to go on.
    fn read_some(&mut self, rt: &impl Print, input: &mut impl Read) -> io::Result<bool> {
        let buffer: &mut [u8] = &mut zeros();
        let Ok(n) = input.read(buffer) else {
            println!(rt; "input unreadable")?;
            return Ok(false);
        };
        for byte in &buffer[..n] {
            self.add(rt, *byte)?;
        }
        Ok(0 < n)
    }

    // Reads to the end of the input, and answers whether it came. Nothing says that it does, so the reads are counted.
    fn read_all(&mut self, rt: &impl Print, input: &mut impl Read) -> io::Result<bool> {
        for _ in 0..READS {
            if !self.read_some(rt, input)? {
                return Ok(true);
            }
        }
        Ok(false)
    }
}

fn main(rt: HostRuntime) -> io::Result<()> {
    let mut replay = Replay::new();
    let ended = replay.read_all(&rt, &mut rt.reader())?;
    if 0 < replay.filled {
        replay.end_line(&rt)?;
    }
    if !ended {
        println!(rt; "input too long")?;
    }
    replay.tallies.print(&rt)
}
