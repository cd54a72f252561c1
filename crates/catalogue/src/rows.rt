// Rows one after another, at most as many as there are names: a list of fixed capacity, since the engine allocates nothing.
ghost use Rattle.std.specs.Prelude.{◌≡◌, ◌<◌, [], ◌∷◌, ◌++◌, length};

use crate::names::NAMES;
use std::marker::Model;

// Callers see the list of the rows. The places behind them are 0: so the list gives the fields back, which `Copy` needs.
#[derive(Clone, Copy)]
pub struct Rows {
    rows: [u8; NAMES],
    count: usize,
}

impl Model for Rows {
    ghost use Rattle.std.specs.Prelude.{ℕ, ◌-◌, List, ◌++◌, length, take, replicate};
    ghost use Rattle.catalogue.specs.RowList.{ZeroesFrom, list_length, list_filled};

    ghost Value = { List ℕ };

    ghost view = { λ r. take r.count r.rows };

    ghost invariant = { λ r. ZeroesFrom r.count r.rows };

    ghost inverse = { λ xs. record { rows = xs ++ replicate (64 - length xs) 0; count = length xs } };

    ghost inverse_ok = { λ r h i. record { rows = list_filled h i; count = list_length h i } };
}

impl Rows {
    // No rows.
    pub fn new() -> Self
        ensures { result ≡ [] }
    {
        Rows {
            rows: [0; NAMES],
            count: 0,
        }
    }

    // A row more, the last.
    pub fn push(&mut self, row: u8)
        requires { length self.old < 64 }
        ensures { self.new ≡ self.old ++ row ∷ [] }
    {
        self.rows[self.count] = row;
        self.count += 1;
    }

    // The rows.
    pub fn as_slice(&self) -> &[u8]
        ensures { result.now ≡ self.now }
    {
        &self.rows[..self.count]
    }

    // How many rows there are.
    pub fn len(&self) -> usize
        ensures { result ≡ length self.now }
    {
        self.as_slice().len()
    }
}
