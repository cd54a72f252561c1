// The answer as the program prints it (01, Known runs; 02, [4]), written into an area of bytes.
//
// In order: digits; numbers read from an area; a text: a byte, numbers, a line; the line of a record, and of all; the lines of an answer; the whole.
// Where the area ends nothing more is stored, and the places are counted on, so that the whole tells how much room it needs.
//
// Digits are made here: std's `write!` promises what it writes only where it answers Ok, never that it does, and `print` cannot fail.
#![tactic(auto)]

ghost use Rattle.std.specs.Prelude.{◌≡◌, [], ◌∷◌, ◌+◌, ◌*◌, ◌<◌, length, get_or};
ghost use Rattle.words.specs.Words.{le_at};
ghost use Rattle.listing.specs.Layout.{element_at, link_at};
ghost use Rattle.run.specs.Printed as Printed;
ghost use Rattle.answers.specs.Numbers.{numbers_of};
ghost use Rattle.printing.specs.Printing.{Countable, element_most, line_most, Wrote, Writes, Prints};

use answers::{Answer, CAN, CANNOT, NO_ALTERNATIVE, NO_NODE, TOO_LONG};
use words::sizes::{LINK_BYTES, SET_BYTES};

// A digit below 16, in ASCII.
fn digit(d: u8) -> u8
    requires { d < 16 }
    ensures { result ≡ Printed.digit d }
{
    if d < 10 { b'0' + d } else { b'a' - 10 + d }
}

// A byte of an area; places past its end read as 0.
fn byte_of(area: &[u8], at: usize) -> u8
    ensures { result ≡ get_or area.now at 0 }
{
    area.get(at).copied().unwrap_or(0)
}

// The number in the 2 bytes from place `at` on, low byte first.
fn half_of(area: &[u8], at: usize) -> u16
    requires { Countable at 2 }
    ensures { result ≡ le_at area.now at 2 }
{
    u16::from_le_bytes([byte_of(area, at), byte_of(area, at + 1)])
}

// Whether a refusal is for a record without a place.
fn is_short(refusal: u32) -> bool
    ensures { result ≡ Printed.is_short refusal }
{
    (NO_NODE <= refusal) & (refusal <= NO_ALTERNATIVE)
}

// A text that is written: the area, and the place of its next byte.
#[derive(Drop)]
struct Text<'a> {
    out: &'a mut [u8],
    at: usize,
}

impl<'a> Text<'a> {
    // Writes one byte.
    fn put(&mut self, byte: u8)
        requires { Countable self.old.at 1 }
        ensures { Writes 1 (byte ∷ []) self.old self.new }
    {
        if self.at < self.out.len() {
            self.out[self.at] = byte;
        }
        self.at += 1;
    }

    // Writes a number "in decimal without leading zeros": at most 10 digits.
    fn decimal(&mut self, n: u32)
        requires { Countable self.old.at 11 }
        ensures { Writes 10 (Printed.decimal n) self.old self.new }
    {
        if n < 10 {
            return self.put(digit(n as u8));
        }
        self.decimal(n / 10);
        self.put(digit((n % 10) as u8));
    }

    // Writes the two hexadecimal digits of a byte.
    fn byte_digits(&mut self, x: u8)
        requires { Countable self.old.at 2 }
        ensures { Writes 2 (Printed.hexadecimal 2 x) self.old self.new }
    {
        self.put(digit(x / 16));
        self.put(digit(x % 16));
    }

    // Writes the hexadecimal digits of the number in the n bytes from a place on, low byte first: two for each byte, "highest first".
    fn hexadecimal(&mut self, area: &[u8], from: usize, n: usize)
        requires { Countable self.old.at (2 * n) × Countable from n }
        ensures { Writes (2 * n) (Printed.hexadecimal (2 * n) (le_at area.now from n)) self.old self.new }
    {
        for i in (0..n).rev() {
            self.byte_digits(byte_of(area, from + i));
        }
    }

    // Writes a word.
    fn word(&mut self, w: &[u8])
        requires { Countable self.old.at (length w.now) }
        ensures { Writes (length w.now) w.now self.old self.new }
    {
        for byte in w {
            self.put(*byte);
        }
    }

    // Writes a space and a number.
    fn number(&mut self, n: u32)
        requires { Countable self.old.at 12 }
        ensures { Writes 11 (32 ∷ Printed.decimal n) self.old self.new }
    {
        self.put(b' ');
        self.decimal(n);
    }

    // Writes numbers, each after one space.
    fn spaced(&mut self, numbers: &[u32])
        requires { Countable self.old.at (11 * length numbers.now + 1) }
        ensures { Writes (11 * length numbers.now) (Printed.spaced numbers.now) self.old self.new }
    {
        for n in numbers {
            self.number(*n);
        }
    }

    // Writes a line of a word and numbers.
    fn line(&mut self, w: &[u8], numbers: &[u32])
        requires { Countable self.old.at (line_most w.now numbers.now) }
        ensures { Writes (line_most w.now numbers.now) (Printed.line w.now numbers.now) self.old self.new }
    {
        self.word(w);
        self.spaced(numbers);
        self.put(b'\n');
    }

    // Writes the line of element d: "E: element, set in 16 lower-case hexadecimal digits, highest first".
    fn element_line(&mut self, elements: &[u8], d: u32)
        requires { Countable self.old.at element_most }
        ensures { Writes element_most (Printed.element_line d (element_at elements.now d)) self.old self.new }
    {
        self.put(b'E');
        self.number(d);
        self.put(b' ');
        self.hexadecimal(elements, SET_BYTES * (d as usize), SET_BYTES);
        self.put(b'\n');
    }

    // Writes the line of link i: "L: from, role, to".
    fn link_line(&mut self, links: &[u8], i: u32)
        requires { Countable self.old.at 35 }
        ensures { Writes 35 (Printed.link_line (link_at links.now i)) self.old self.new }
    {
        let place = LINK_BYTES * (i as usize);
        let from = half_of(links, place) as u32;
        let role = half_of(links, place + 2) as u32;
        let to = half_of(links, place + 4) as u32;
        self.line(b"L", &[from, role, to]);
    }

    // Writes the lines of the first `count` elements.
    fn element_lines(&mut self, elements: &[u8], count: u32)
        requires { Countable self.old.at (element_most * count) }
        ensures { Writes (element_most * count) (Printed.element_lines elements.now count) self.old self.new }
    {
        for d in 0..count {
            self.element_line(elements, d);
        }
    }

    // Writes the lines of the first `count` links. One function for this and `element_lines` would take the line's method as a closure, and be longer.
    fn link_lines(&mut self, links: &[u8], count: u32)
        requires { Countable self.old.at (35 * count) }
        ensures { Writes (35 * count) (Printed.link_lines links.now count) self.old self.new }
    {
        for i in 0..count {
            self.link_line(links, i);
        }
    }

    // Writes the line of the records used.
    fn used_line(&mut self, answer: Answer)
        requires { Countable self.old.at 38 }
        ensures { Writes 38 (Printed.used_line (numbers_of answer)) self.old self.new }
    {
        self.line(b"USED", &[answer.nodes, answer.edges, answer.alternatives]);
    }

    // Writes what is printed with "can".
    fn can(&mut self, answer: Answer, elements: &[u8], links: &[u8])
        requires { self.old.at ≡ 0 }
        ensures { Writes (64 + element_most * answer.elements + 35 * answer.links)
            (Printed.can_lines (numbers_of answer) elements.now links.now)
            self.old self.new }
    {
        self.line(b"CAN", &[answer.elements, answer.links]);
        self.used_line(answer);
        self.element_lines(elements, answer.elements);
        self.link_lines(links, answer.links);
    }

    // Writes what is printed with "cannot".
    fn cannot(&mut self, answer: Answer)
        requires { self.old.at ≡ 0 }
        ensures { Writes 64 (Printed.cannot_lines (numbers_of answer)) self.old self.new }
    {
        self.line(b"CANNOT", &[]);
        self.used_line(answer);
    }

    // Writes what is printed with a refusal: its number, "for 11, both counts too", for 13, 14 and 15 how many records were lent.
    fn refused(&mut self, answer: Answer)
        requires { self.old.at ≡ 0 }
        ensures { Writes 64 (Printed.refused_line (numbers_of answer)) self.old self.new }
    {
        if answer.refusal == TOO_LONG {
            return self.line(b"REFUSED", &[answer.refusal, answer.elements, answer.links]);
        }
        if is_short(answer.refusal) {
            return self.line(b"REFUSED", &[answer.refusal, answer.lent]);
        }
        self.line(b"REFUSED", &[answer.refusal]);
    }
}

// Writes a line of a word and numbers from place `at` on, and answers the place after it.
pub fn line(out: &mut [u8], at: usize, w: &[u8], numbers: &[u32]) -> usize
    requires { Countable at (line_most w.now numbers.now) }
    ensures { Wrote (line_most w.now numbers.now) (Printed.line w.now numbers.now)
        out.old at out.new result }
{
    let mut text = Text { out, at };
    text.line(w, numbers);
    text.at
}

// Writes what is printed for an answer and the two example areas, and answers its length, which is at most 64 bytes, and with "can"
// 30 more for each element and 35 for each link. Where `out` is shorter it holds as much as has room. Bytes of `out` after the text stay as they were.
pub fn print(answer: Answer, elements: &[u8], links: &[u8], out: &mut [u8]) -> usize
    ensures { Prints (numbers_of answer) elements.now links.now out.old out.new result }
{
    let mut text = Text { out, at: 0 };
    if answer.verdict == CAN {
        text.can(answer, elements, links);
        return text.at;
    }
    if answer.verdict == CANNOT {
        text.cannot(answer);
        return text.at;
    }
    text.refused(answer);
    text.at
}
