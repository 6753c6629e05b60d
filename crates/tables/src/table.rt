//! A table of rows that are known by an id, in the order entered. All memory is reserved at opening.
ghost use Rattle.std.specs.Prelude.{◌≡◌, ℕ, None, Some, IfOk, MatchResult, not};
ghost use Rattle.tables.specs.Refusals.{IsTested};
ghost use Rattle.tables.specs.Tables.{IsMissing, is_entered, row_under, new_table, position_of, TriedToAdd, TriedToAddAll};
ghost use Rattle.tables.specs.declared.refusal.Reason.TheVariants.{AlreadyEntered};

use super::refusal::Reason;
use std::alloc::{AllocError, Global};
use std::marker::Model;

/// A row that is known by an id.
pub trait HasId {
    ghost key: { Self → ℕ };

    /// The id.
    fn id(&self) -> u16
        ensures { result ≡ key self.now };
}

/// Rows, in the order entered, and room for so many.
#[derive(Drop)]
pub struct Table<T> {
    rows: Vec<T>,
    most: usize,
}

impl<T> Model for Table<T> {
    ghost use Rattle.tables.specs.View.{Table as Rows, table_code};

    ghost Value = { Rows T };

    ghost coded = { table_code T.code };

    ghost use Rattle.std.specs.Prelude.{◌≤◌, vec_capacity};

    ghost view = { λ t. record { rows = t.rows.items; most = t.most } };

    ghost invariant = { λ t. t.most ≤ vec_capacity t.rows };
}

impl<T> Table<T> {
    /// A table with room for `most` rows, and none yet. It asks for no memory beyond these.
    pub fn open(alloc: Global, most: usize) -> Result<Table<T>, AllocError>
        ensures { IfOk result (λ t. t ≡ new_table most) }
    {
        let rows = Vec::with_capacity(alloc, most)?;
        Ok(Table { rows, most })
    }

    /// The rows, in the order entered.
    pub fn rows(&self) -> &[T]
        ensures { result.now ≡ self.now.rows }
    {
        self.rows.as_slice()
    }

    /// Adds a row after the others. Where there is no room for it, it is refused as `Full`, and the table stays.
    pub fn add(&mut self, row: T) -> Result<(), Reason>
    where
        T: Drop,
        ensures { TriedToAdd row self.old self.new result }
    {
        if self.rows.len() >= self.most {
            return Err(Reason::Full);
        }
        self.rows.push_reserved(row);
        Ok(())
    }

    /// Adds rows after the others. Where there is no room for all of them, none is added, by `Full`.
    pub fn add_all(&mut self, rows: &[T]) -> Result<(), Reason>
    where
        T: Copy,
        ensures { TriedToAddAll rows.now self.old self.new result }
    {
        let count = self.rows.len();
        if count > self.most || rows.len() > self.most - count {
            return Err(Reason::Full);
        }
        for row in rows {
            self.rows.push_reserved(*row);
        }
        Ok(())
    }
}

impl<T> Table<T> {
    ghost use Rattle.std.specs.Borrow.{sem};
    ghost use Rattle.tables.specs.Lends.{lends_rows};

    /// All rows, to be written.
    pub fn rows_mut(&mut self) -> &mut [T]
        ensures* writes_back { sem 𝓛 (lends_rows T.row self.entry result) }
        ensures value { result.now ≡ self.old.rows }
    {
        self.rows.as_mut_slice()
    }
}

impl<T: HasId> Table<T> {
    ghost use Rattle.std.specs.Borrow.{sem};
    ghost use Rattle.tables.specs.Lends.{lends_found};

    /// The position of the first row with this id, from 0.
    pub fn find(&self, id: u16) -> Option<usize>
        ensures { result ≡ position_of T.key id self.now.rows }
    {
        self.rows.iter().position(|row| row.id() == id)
    }

    /// The first row with this id; `NotEntered` where there is none.
    #[tactic(auto, using(crate::proofs::Places::find_there, crate::proofs::Places::find_nowhere))]
    pub fn row(&self, id: u16) -> Result<&T, Reason>
        ensures { MatchResult result (λ x. row_under T.key id self.now.rows ≡ Some x.now)
            (IsMissing (row_under T.key id self.now.rows)) }
    {
        match self.find(id) {
            Some(position) => Ok(&self.rows[position]),
            None => Err(Reason::NotEntered),
        }
    }

    /// The same row, to be written.
    #[tactic(auto, using(crate::proofs::Places::find_there, crate::proofs::Places::find_nowhere), unfolding(crate::specs::Tables::with_replaced))]
    pub fn row_mut(&mut self, id: u16) -> Result<&mut T, Reason>
        ensures* writes_back { sem 𝓛 (lends_found T.row T.key self.entry id result) }
        ensures value { MatchResult result (λ x. row_under T.key id self.old.rows ≡ Some x.now)
            (IsMissing (row_under T.key id self.old.rows)) }
    {
        match self.find(id) {
            Some(position) => Ok(&mut self.rows[position]),
            None => Err(Reason::NotEntered),
        }
    }

    /// That no row is entered under an id; else `AlreadyEntered`.
    pub fn check_free(&self, id: u16) -> Result<(), Reason>
        ensures { IsTested (not (is_entered T.key id self.now.rows)) tt AlreadyEntered result }
    {
        match self.row(id) {
            Ok(_) => Err(Reason::AlreadyEntered),
            Err(_) => Ok(()),
        }
    }
}
