// The program: reads one rule file from standard input and prints what the engine answers (01, Known runs).
//
// What is printed is `report`'s: here bytes are only read and written.
#![tactic(auto)]

use input::read_full;
use report::{TEXT, report};
use std::io;

// One byte more than a file that may pass: a longer file is refused by its length, whatever comes after these bytes (run's `program_text-take`).
const FILE: usize = 4097;

fn main(rt: HostRuntime) -> io::Result<()> {
    let mut file = [0u8; FILE];
    let mut text = [0u8; TEXT];
    let length = read_full(&mut rt.stdin(), &mut file)?;
    let count = report(&file[..length], &mut text);
    rt.write_all(&text[..count])
}
