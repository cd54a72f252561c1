// The names that a catalogue lists (02, [7]).
//
// In order: the rows of the names; a name more; the names.
ghost use Rattle.std.specs.Prelude.{◌≡◌, ◌+◌, ◌<◌};
ghost use Rattle.concepts.specs.Concept.{Table};
ghost use Rattle.concepts.specs.RowSet.{insert};
ghost use Rattle.problem.specs.Decoded.{table_of, Decoded};
ghost use Rattle.subsumption.specs.Names.{names};
ghost use Rattle.catalogue.specs.Clauses.{PlacesFrom, names_below, Lists, NameAsks, NameFits};

use crate::Listed;
use crate::rows::Rows;
use decoding::kinds::{ATOMIC, NEGATED};
use problem::{kind_at, left_at, row_count};

// "name 0 to 63"
pub const NAMES: usize = 64;

// A row is put down for its name, if it is of the kind.
fn put_place(problem: &[u64], kind: u8, k: usize, places: &mut [Option<u8>])
    requires { Decoded problem.now × (kind < 3) × PlacesFrom kind (table_of problem.now) (k + 1) places.old }
    ensures { PlacesFrom kind (table_of problem.now) k places.new }
{
    if kind_at(problem, k) == kind as usize {
        places[left_at(problem, k)] = Some(k as u8);
    }
}

// At each name, its row of a kind, if it has one. From the last row to the first, so that the first one stays.
fn places(problem: &[u64], kind: u8) -> [Option<u8>; NAMES]
    requires { Decoded problem.now × (kind < 3) }
    ensures { PlacesFrom kind (table_of problem.now) 0 result }
{
    let mut places = [None; NAMES];
    for k in (0..row_count(problem)).rev() {
        put_place(problem, kind, k, &mut places);
    }
    places
}

// A set of names with one more.
fn with_bit(names: u64, name: usize) -> u64
    requires { name < 64 }
    ensures { result ≡ insert name names }
{
    (1u64 << name) | names
}

// A name is listed, if it has both rows.
fn list_name(list: &mut Listed, name: usize, positive: Option<u8>, negative: Option<u8>)
    requires { NameFits name list.old }
    ensures { (t : Table) → NameAsks t name positive negative list.old → Lists t (names_below t (name + 1)) list.new }
{
    if let Some((positive, negative)) = positive.zip(negative) {
        list.names = with_bit(list.names, name);
        list.positives.push(positive);
        list.negatives.push(negative);
    }
}

// The names with both a kind 1 and a kind 2 row.
pub fn listed(problem: &[u64]) -> Listed
    requires { Decoded problem.now }
    ensures { Lists (table_of problem.now) (names (table_of problem.now)) result }
{
    let positives = places(problem, ATOMIC);
    let negatives = places(problem, NEGATED);
    let mut list = Listed {
        names: 0,
        positives: Rows::new(),
        negatives: Rows::new(),
    };
    for name in 0..NAMES {
        list_name(&mut list, name, positives[name], negatives[name]);
    }
    list
}
