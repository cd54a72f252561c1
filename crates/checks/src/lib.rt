// The checks of a rule file (01, Refusals, in checking order; 02, [6] and [7]).
//
// In order: the refusals; the trailer, a row's bytes and a rule; checks 1 to 4; what checks 5 to 7 look for in a row; checks 5 to 8; all checks in order.
// Rows of kind 7, and where they serve, are in `inclusions`. Which kinds of rows are allowed is a parameter, `kinds`, as in `decoding`. Which rows are
// wanted is another, `wanted`.
#![tactic(auto)]

ghost use Rattle.std.specs.Prelude.{◌≡◌, List, ℕ, ◌+◌, ◌*◌, ◌≤◌, ◌<◌, leb, length, take, drop, OnOk};
ghost use Rattle.concepts.specs.Lists.{any, range};
ghost use Rattle.decoding.specs.Decoding.{Kinds};
ghost use Rattle.decoding.specs.Named.{named_by};
ghost use Rattle.rulefile.specs.Format as Format;
ghost use Rattle.rulefile.specs.Checks.{Parted};
ghost use Rattle.checks.specs.Findings.{named_at};
ghost use Rattle.checks.specs.Refusals.{number_of, refused_if, refusal_of};

use decoding::{Row, decode, names_from};
use inclusions::inclusion_serves;
use rulefile::{LONGEST, MOST_ROWS, MOST_RULES, ROW, TRAILER};

pub mod inclusions;

// The checks, in checking order; as a number the refusal that each gives. 9 was that of a check that was taken out, and is not used again.
#[derive(Clone, Copy, PartialEq, Eq, Debug)]
pub enum Refusal {
    Length = 1,
    Mark = 2,
    Counts = 3,
    Place = 4,
    Malformed = 5,
    Argument = 6,
    Repeated = 7,
    Rule = 8,
    Inclusion = 16,
}

impl Refusal {
    // The number that a refused file gets.
    pub fn number(self) -> u8
        ensures { result ≡ number_of self }
    {
        self as u8
    }
}

// Byte i of the trailer.
fn trailer_byte(file: &[u8], i: usize) -> u8
    requires { (8 ≤ length file.now) × (i < 8) }
    ensures { result ≡ Format.trailer_byte file.now i }
{
    file[file.len() - TRAILER + i]
}

// The place of the first row.
pub fn first_row(file: &[u8]) -> u16
    requires { 8 ≤ length file.now }
    ensures { result ≡ Format.first_row file.now }
{
    u16::from_le_bytes([trailer_byte(file, 0), trailer_byte(file, 1)])
}

// The number of rows.
pub fn row_count(file: &[u8]) -> u8
    requires { 8 ≤ length file.now }
    ensures { result ≡ Format.row_count file.now }
{
    trailer_byte(file, 2)
}

// The number of rules.
pub fn rule_count(file: &[u8]) -> u8
    requires { 8 ≤ length file.now }
    ensures { result ≡ Format.rule_count file.now }
{
    trailer_byte(file, 3)
}

// Byte i of row k.
pub fn row_byte(file: &[u8], k: usize, i: usize) -> u8
    requires { Parted file.now × (k < Format.row_count file.now) × (i < 4) }
    ensures { result ≡ Format.row_byte file.now k i }
{
    file[first_row(file) as usize + ROW * k + i]
}

// The row that rule i names.
fn rule(file: &[u8], i: usize) -> u8
    requires { Parted file.now × (i < Format.rule_count file.now) }
    ensures { result ≡ Format.rule file.now i }
{
    file[first_row(file) as usize + ROW * row_count(file) as usize + i]
}

// Whether the file is shorter than 8 or longer than 4,096 bytes: check 1.
#[tactic(auto, unfolding(rulefile::specs::Format::bad_length))]
fn bad_length(file: &[u8]) -> bool
    ensures { result ≡ Format.bad_length file.now }
{
    (file.len() < TRAILER) | (LONGEST < file.len())
}

// Whether the last three bytes are not 46 49 54: check 2.
#[tactic(auto, unfolding(rulefile::specs::Format::bad_mark))]
fn bad_mark(file: &[u8]) -> bool
    requires { 8 ≤ length file.now }
    ensures { result ≡ Format.bad_mark file.now }
{
    (trailer_byte(file, 5) != 0x46)
        | ((trailer_byte(file, 6) != 0x49) | (trailer_byte(file, 7) != 0x54))
}

// Whether there are 0 rows, or more rows or rules than a file has at most: check 3.
#[tactic(auto, unfolding(rulefile::specs::Format::bad_counts))]
fn bad_counts(file: &[u8]) -> bool
    requires { 8 ≤ length file.now }
    ensures { result ≡ Format.bad_counts file.now }
{
    let rows = row_count(file) as usize;
    (rows == 0) | ((MOST_ROWS < rows) | (MOST_RULES < rule_count(file) as usize))
}

// Whether the parts don't fill the file: check 4.
#[tactic(auto, unfolding(rulefile::specs::Format::bad_place))]
fn bad_place(file: &[u8]) -> bool
    requires { 8 ≤ length file.now }
    ensures { result ≡ Format.bad_place file.now }
{
    first_row(file) as usize + ROW * row_count(file) as usize + rule_count(file) as usize + TRAILER
        != file.len()
}

// Row k, decoded.
fn row_at(file: &[u8], kinds: u16, k: usize) -> Option<Row>
    requires { Parted file.now × (k < Format.row_count file.now) }
    ensures { named_by result ≡ named_at kinds file.now k }
{
    decode(
        kinds,
        row_byte(file, k, 0),
        row_byte(file, k, 1),
        row_byte(file, k, 2),
        row_byte(file, k, 3),
    )
}

// Whether row k is malformed.
fn bad_row(file: &[u8], kinds: u16, k: usize) -> bool
    requires { Parted file.now × (k < Format.row_count file.now) }
    ensures { result ≡ Format.bad_row kinds file.now k }
{
    row_at(file, kinds, k).is_none()
}

// Whether row k names an argument row that isn't lower than itself.
fn bad_argument(file: &[u8], kinds: u16, k: usize) -> bool
    requires { Parted file.now × (k < Format.row_count file.now) }
    ensures { result ≡ Format.bad_argument kinds file.now k }
{
    names_from(row_at(file, kinds, k), k)
}

// Whether rows j and k have the same four bytes. They are compared one by one: as two slices, a file of 64 rows took a tenth longer to read.
fn same_row(file: &[u8], j: usize, k: usize) -> bool
    requires { Parted file.now × (j < Format.row_count file.now) × (k < Format.row_count file.now) }
    ensures { result ≡ Format.same_row file.now j k }
{
    (row_byte(file, j, 0) == row_byte(file, k, 0))
        & ((row_byte(file, j, 1) == row_byte(file, k, 1))
            & ((row_byte(file, j, 2) == row_byte(file, k, 2))
                & (row_byte(file, j, 3) == row_byte(file, k, 3))))
}

// Whether a lower row has the four bytes of row k. As an `any` over the lower rows each of them took eight instructions in place of five, which a file of
// 64 rows pays two thousand times.
fn repeated(file: &[u8], k: usize) -> bool
    requires { Parted file.now × (k < Format.row_count file.now) }
    ensures { result ≡ Format.repeated file.now k }
{
    for j in 0..k {
        if same_row(file, k, j) {
            return true;
        }
    }
    false
}

// Whether some row is malformed: check 5.
fn some_malformed(file: &[u8], kinds: u16) -> bool
    requires { Parted file.now }
    ensures { result ≡ Format.some_row file.now (Format.bad_row kinds file.now) }
{
    (0..row_count(file) as usize).any(|k| bad_row(file, kinds, k))
}

// Whether some row names an argument row that isn't lower than itself: check 6.
fn some_bad_argument(file: &[u8], kinds: u16) -> bool
    requires { Parted file.now }
    ensures { result ≡ Format.some_row file.now (Format.bad_argument kinds file.now) }
{
    (0..row_count(file) as usize).any(|k| bad_argument(file, kinds, k))
}

// Whether two rows have the same four bytes: check 7.
fn some_repeated(file: &[u8]) -> bool
    requires { Parted file.now }
    ensures { result ≡ Format.some_row file.now (Format.repeated file.now) }
{
    (0..row_count(file) as usize).any(|k| repeated(file, k))
}

// Whether some rule isn't below the number of rows.
fn rule_past_rows(file: &[u8]) -> bool
    requires { Parted file.now }
    ensures { result ≡ any (λ i. leb (Format.row_count file.now) (Format.rule file.now i)) (range 0 (Format.rule_count file.now)) }
{
    (0..rule_count(file) as usize).any(|i| row_count(file) <= rule(file, i))
}

// Whether some row of a list isn't below the number of rows.
fn past_rows(file: &[u8], list: &[u8]) -> bool
    requires { 8 ≤ length file.now }
    ensures { result ≡ any (λ k. leb (Format.row_count file.now) k) list.now }
{
    list.iter().any(|k| row_count(file) <= *k)
}

// Whether a rule or a wanted row isn't below the number of rows: check 8.
#[tactic(auto, unfolding(rulefile::specs::Format::bad_rule))]
fn bad_rule(file: &[u8], wanted: &[u8]) -> bool
    requires { Parted file.now }
    ensures { result ≡ Format.bad_rule wanted.now file.now }
{
    rule_past_rows(file) | past_rows(file, wanted)
}

// A refusal, if a test holds.
fn refuse_if(test: bool, refusal: Refusal) -> Result<(), Refusal>
    ensures { result ≡ refused_if test refusal }
{
    if test { Err(refusal) } else { Ok(()) }
}

// Checks 1 to 4: after them the parts are known to fill the file.
#[tactic(auto, using(crate::proofs::RefusalLaws::passed), unfolding(rulefile::specs::Format::checks, concepts::specs::Lists::first))]
fn check_parts(file: &[u8]) -> Result<(), Refusal>
    ensures refusal { (kinds : Kinds) (wanted : List ℕ) → refusal_of result ≡ Format.refusal_by (take 4 (Format.checks kinds wanted)) file.now }
    ensures parted { OnOk result (Parted file.now) }
{
    refuse_if(bad_length(file), Refusal::Length)?;
    refuse_if(bad_mark(file), Refusal::Mark)?;
    refuse_if(bad_counts(file), Refusal::Counts)?;
    refuse_if(bad_place(file), Refusal::Place)
}

// Checks 5 to 8 and 16.
#[tactic(auto, unfolding(rulefile::specs::Format::checks, concepts::specs::Lists::first))]
fn check_rows(file: &[u8], kinds: u16, wanted: &[u8]) -> Result<(), Refusal>
    requires { Parted file.now }
    ensures { refusal_of result ≡ Format.refusal_by (drop 4 (Format.checks kinds wanted.now)) file.now }
{
    refuse_if(some_malformed(file, kinds), Refusal::Malformed)?;
    refuse_if(some_bad_argument(file, kinds), Refusal::Argument)?;
    refuse_if(some_repeated(file), Refusal::Repeated)?;
    refuse_if(bad_rule(file, wanted), Refusal::Rule)?;
    refuse_if(inclusion_serves(file, kinds, wanted), Refusal::Inclusion)
}

// The refusal of the first check that refuses the file with these wanted rows, if there is one.
pub fn check(file: &[u8], kinds: u16, wanted: &[u8]) -> Result<(), Refusal>
    ensures { refusal_of result ≡ Format.refusal_for kinds wanted.now file.now }
{
    check_parts(file)?;
    check_rows(file, kinds, wanted)
}
