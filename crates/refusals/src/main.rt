// The reader over many files. Standard input holds cases, each a length of 2 bytes, low byte first, and as many bytes of a rule file; for each the program
// writes one line: the number of the refusal, 1 to 8, or `ok`; the length of the text; the sum of the text's bytes. tests/refusals.py makes stdin and stdout.
#![tactic(auto)]

use decoding::RULE_KINDS;
use std::io;
use std::io::{ErrorKind, Read};

// Room for one file, above the 4,096 bytes that may pass.
const ROOM: usize = 8192;

// More cases than any input holds: the loop over them ends.
const MOST_CASES: u32 = 1000000;

// The sum of some bytes, modulo 65,536.
fn sum(bytes: &[u8]) -> u16 {
    bytes
        .iter()
        .fold(0, |total: u16, byte| total.wrapping_add(u16::from(*byte)))
}

// Writes the refusal of one file, or that it is accepted.
fn show_refusal(rt: &impl Print, file: &[u8]) -> io::Result<()> {
    match reader::read(file, RULE_KINDS) {
        Err(refusal) => print!(rt; "{}", refusal.number()),
        Ok(_) => print!(rt; "ok"),
    }
}

// Writes the line of one file.
fn answer(rt: &impl Print, file: &[u8]) -> io::Result<()> {
    show_refusal(rt, file)?;
    let text = reader::text(file, RULE_KINDS);
    let length = text.len();
    let total = sum(text);
    println!(rt; " {length} {total}")
}

// Fills the room with the next bytes of the input; false where the input ends before.
fn fill(input: &mut impl Read, room: &mut [u8]) -> io::Result<bool> {
    match input.read_exact(room) {
        Ok(()) => Ok(true),
        Err(e) if e.kind() == ErrorKind::UnexpectedEof => Ok(false),
        Err(e) => Err(e),
    }
}

// Reads a file as long as the slice and writes its line; false where the input ends before.
fn one_file(rt: &impl Print, input: &mut impl Read, file: &mut [u8]) -> io::Result<bool> {
    if !fill(input, file)? {
        return Ok(false);
    }
    answer(rt, file)?;
    Ok(true)
}

// Reads one case and writes its line; false at the end of the input, or where a file has no room.
fn one_case(rt: &impl Print, input: &mut impl Read) -> io::Result<bool> {
    let mut length = [0u8; 2];
    if !fill(input, &mut length)? {
        return Ok(false);
    }
    let n = usize::from(u16::from_le_bytes(length));
    if ROOM < n {
        return Ok(false);
    }
    let mut room = [0u8; ROOM];
    one_file(rt, input, &mut room[..n])
}

fn main(rt: HostRuntime) -> io::Result<()> {
    let mut input = rt.stdin();
    for _ in 0..MOST_CASES {
        if !one_case(&rt, &mut input)? {
            break;
        }
    }
    Ok(())
}
