// Rows of kind 7 in a file, and check 16 (02, [6]).
//
// In order: a row of kind 7; a row that names one; whether a file has any, whether a row, a rule or a list names one; the check.
ghost use Rattle.std.specs.Prelude.{◌≡◌, ◌<◌};
ghost use Rattle.concepts.specs.Lists.{any};
ghost use Rattle.rulefile.specs.Format as Format;
ghost use Rattle.rulefile.specs.Checks.{Parted};

use crate::{row_at, row_byte, row_count, rule, rule_count};
use decoding::Row;
use decoding::kinds::INCLUSION;

// Whether there is a row k, and it is of kind 7.
fn is_inclusion(file: &[u8], k: usize) -> bool
    requires { Parted file.now }
    ensures { result ≡ Format.inclusion_at file.now k }
{
    (k < row_count(file) as usize) && (row_byte(file, k, 0) == INCLUSION)
}

// Whether row k names a row of kind 7.
fn names_inclusion(file: &[u8], kinds: u16, k: usize) -> bool
    requires { Parted file.now × (k < Format.row_count file.now) }
    ensures { result ≡ Format.inclusion_named kinds file.now k }
{
    let Some(row) = row_at(file, kinds, k) else {
        return false;
    };
    match row {
        Row::Nullary => false,
        Row::Unary(l) => is_inclusion(file, l as usize),
        Row::Binary(l, r) => is_inclusion(file, l as usize) | is_inclusion(file, r as usize),
    }
}

// Whether some row is of kind 7.
pub fn some_inclusion(file: &[u8]) -> bool
    requires { Parted file.now }
    ensures { result ≡ Format.some_inclusion file.now }
{
    (0..row_count(file) as usize).any(|k| is_inclusion(file, k))
}

// Whether some row names a row of kind 7.
fn inclusion_named(file: &[u8], kinds: u16) -> bool
    requires { Parted file.now }
    ensures { result ≡ Format.some_named kinds file.now }
{
    (0..row_count(file) as usize).any(|k| names_inclusion(file, kinds, k))
}

// Whether some rule is a row of kind 7.
fn inclusion_ruled(file: &[u8]) -> bool
    requires { Parted file.now }
    ensures { result ≡ Format.some_ruled file.now }
{
    (0..rule_count(file) as usize).any(|i| is_inclusion(file, rule(file, i) as usize))
}

// Whether some row of a list is of kind 7.
fn inclusion_listed(file: &[u8], list: &[u8]) -> bool
    requires { Parted file.now }
    ensures { result ≡ any (Format.inclusion_at file.now) list.now }
{
    list.iter().any(|k| is_inclusion(file, *k as usize))
}

// Whether a row of kind 7 serves as an argument, a rule or a wanted row: check 16. Most files have none.
pub fn inclusion_serves(file: &[u8], kinds: u16, wanted: &[u8]) -> bool
    requires { Parted file.now }
    ensures { result ≡ Format.inclusion_serves kinds wanted.now file.now }
{
    some_inclusion(file)
        && (inclusion_named(file, kinds) | (inclusion_ruled(file) | inclusion_listed(file, wanted)))
}
