// An accepted file decoded once into the words of a problem (01, The rule file; 02, [6]), and other wanted rows or rules written into them (02, [7], [11]).
//
// In order: the rows written; the counts, and lists of rows; decoding, of parts and of an accepted file; other wanted rows, other rules.
// How the inclusions are written is in inclusions.rt.
#![tactic(auto)]

ghost use Rattle.std.specs.Prelude.{◌≡◌, cond, ◌+◌, ◌*◌, ◌≤◌, ◌<◌, length};
ghost use Rattle.concepts.specs.RowSet.{empty, from_list};
ghost use Rattle.decoding.specs.Decoding.{rule_kinds};
ghost use Rattle.reader.specs.Read.{LaidFor};
ghost use Rattle.words.specs.Sizes.{width};
ghost use Rattle.rowset.specs.WordOf.{word_of};
ghost use Rattle.problem.specs.Rows.{row_byte, row_count, Rows, ListsRows, AllBelow};
ghost use Rattle.problem.specs.Layout.{room};
ghost use Rattle.problem.specs.Decoded.{table_of, problem_of, Decoded, DecodedFrom};
ghost use Rattle.decoder.specs.FileProblem.{FileDecoded};
ghost use Rattle.decoder.specs.Marking.{mask_place, PutsList};
ghost use Rattle.decoder.specs.Writing.{along, put_row, words_for, put_counts, EmptyWords, Partly, Placed};
ghost use Rattle.decoder.specs.Want.{AllServe, with_wanted, with_rules, Poses};

use decoding::kinds::UNIV;
use inclusions::{put_inclusions, put_sames};
use problem::layout::{COUNT, INCLUSIONS, KINDS, ROWS, RULES, UNIVERSALS, USED, WANTED};
use reader::{Layout, rows_of, rules_of};
use rowset::{is_empty_mask, mark};
use rulefile::ROW;
use words::sizes::SET_WORDS;

pub mod inclusions;

// Byte i of row k.
fn byte_at(rows: &[u8], k: usize, i: usize) -> u8
    requires { (k < row_count rows.now) × (i < 4) }
    ensures { (result ≡ row_byte rows.now k i) × (result < 256) }
{
    rows[ROW * k + i]
}

// The place of the second mask that a row is marked in.
fn second_mask(kind: u8, role: u8) -> usize
    ensures { result ≡ mask_place (along kind role) }
{
    if kind == UNIV {
        return UNIVERSALS + SET_WORDS * role as usize;
    }
    KINDS + SET_WORDS * kind as usize
}

// Writes row k.
fn put_row(rows: &[u8], out: &mut [u64], k: usize)
    requires { Rows rows.now × (k < row_count rows.now) × (room ≤ length out.old) }
    ensures { out.new ≡ put_row rows.now k out.old }
{
    let kind = byte_at(rows, k, 0);
    let role = byte_at(rows, k, 1);
    let left = byte_at(rows, k, 2);
    let right = byte_at(rows, k, 3);
    out[ROWS + k] = u32::from_le_bytes([kind, role, left, right]) as u64;
    mark(out, KINDS + SET_WORDS * kind as usize, k);
    mark(out, second_mask(kind, role), k);
}

// Writes all rows.
fn put_rows(rows: &[u8], out: &mut [u64])
    requires { Rows rows.now × EmptyWords out.old }
    ensures { Partly rows.now (row_count rows.now) out.new }
{
    for k in 0..rows.len() / ROW {
        put_row(rows, out, k);
    }
}

// Writes the number of rows, and of the words in use; the latter is given back.
fn put_counts(out: &mut [u64], n: usize) -> usize
    requires { (room ≤ length out.old) × (n ≤ width) }
    ensures { (out.new ≡ put_counts n out.old) × (result ≡ words_for n) }
{
    let used = (n + 63) / 64;
    out[COUNT] = n as u64;
    out[USED] = used as u64;
    used
}

// A word of rows, or of codes, or an empty one.
fn word_if(keep: bool, word: u64) -> u64
    ensures { result ≡ cond keep word empty }
{
    if keep { word } else { 0 }
}

// Word j of the set of the rows in a list.
fn word_of(list: &[u8], j: usize) -> u64
    ensures { result ≡ word_of (from_list list.now) j }
{
    let mut word: u64 = 0;
    for row in list {
        let k = *row as usize;
        word |= word_if(k / 64 == j, 1u64 << (k % 64));
    }
    word
}

// Writes the rows of a list as the mask of n words at a place. From word to word, so that none is read and written for each row.
fn put_list(out: &mut [u64], at: usize, list: &[u8], n: usize)
    requires { (at + n ≤ length out.old) × AllBelow (64 * n) list.now }
    ensures { PutsList at n list.now out.old out.new }
{
    for j in 0..n {
        out[at + j] = word_of(list, j);
    }
}

// Writes the rows, the counts, the rules and the wanted rows into words that are empty so far.
fn place(rows: &[u8], rules: &[u8], wanted: &[u8], out: &mut [u64])
    requires { Rows rows.now × ListsRows rows.now rules.now × ListsRows rows.now wanted.now × EmptyWords out.old }
    ensures { Placed rows.now rules.now wanted.now out.new }
{
    put_rows(rows, out);
    let used = put_counts(out, rows.len() / ROW);
    put_list(out, RULES, rules, used);
    put_list(out, WANTED, wanted, used);
}

// Decodes the rows, the rules and the wanted rows into words that are empty so far. Most files have no inclusion.
pub fn decode(rows: &[u8], rules: &[u8], wanted: &[u8], out: &mut [u64])
    requires { Rows rows.now × ListsRows rows.now rules.now × ListsRows rows.now wanted.now × EmptyWords out.old }
    ensures { DecodedFrom rows.now rules.now wanted.now out.new }
{
    place(rows, rules, wanted, out);
    if !is_empty_mask(out, INCLUSIONS, SET_WORDS) {
        put_sames(out);
        put_inclusions(out);
    }
}

// Decodes a file that is accepted with these wanted rows.
pub fn decode_file(file: &[u8], layout: Layout, wanted: &[u8], out: &mut [u64])
    requires { LaidFor rule_kinds wanted.now file.now layout × EmptyWords out.old }
    ensures { FileDecoded wanted.now file.now out.new }
{
    let rows = rows_of(file, layout);
    let rules = rules_of(file, layout);
    decode(rows, rules, wanted, out);
}

// The rows of a list are wanted, and no others. Not one function with `impose`: each is one call, and promises something else of the problem.
pub fn want(problem: &mut [u64], rows: &[u8])
    requires { Decoded problem.old × AllServe (table_of problem.old) rows.now }
    ensures { Poses (with_wanted (from_list rows.now) (problem_of problem.old)) problem.new }
{
    put_list(problem, WANTED, rows, SET_WORDS);
}

// The rows of a list are the rules, and no others.
pub fn impose(problem: &mut [u64], rows: &[u8])
    requires { Decoded problem.old × AllServe (table_of problem.old) rows.now }
    ensures { Poses (with_rules (from_list rows.now) (problem_of problem.old)) problem.new }
{
    put_list(problem, RULES, rows, SET_WORDS);
}
