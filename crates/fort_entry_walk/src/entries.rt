//! The entries over states, one after another.
ghost use Rattle.std.specs.Prelude.{◌≡◌, ℕ, ◌^◌, ◌<◌, ◌≤◌, length, IfSome, IfNone, true, false};
ghost use Rattle.fort_tables.specs.Entries.{no_entry, IsNextEntry, IsLastEntry};

use crate::walk::Walk;
use fort_terms::Signature;
use fort_tuple_symbols::Row;
use std::marker::Model;

/// Goes through the entries over states in their order.
#[derive(Drop)]
pub struct Entries<'a> {
    signature: &'a Signature,
    walk: Walk,
    /// The entry at which the walk stands.
    row: Row,
}

impl<'a> Model for Entries<'a> {
    ghost use Rattle.fort_entry_walk.specs.EntriesView.{Walking};

    ghost Value = { Walking };

    ghost use Rattle.fort_entry_walk.specs.EntriesInside.{walking_in, IsWalking};

    ghost view = { walking_in };

    ghost invariant = { IsWalking };
}

impl<'a> Entries<'a> {
    /// Before the first entry.
    pub fn new(sig: &'a Signature, columns: usize) -> Entries<'a>
        requires { columns ≤ 16 }
        ensures signature { result.signature ≡ sig.now }
        ensures columns { result.columns ≡ columns }
        ensures start { result.last ≡ no_entry columns }
    {
        // its clause says that the signature is lawful
        let _symbols = sig.len();
        let walk = Walk::new(sig, columns);
        let row = walk.row();
        Entries {
            signature: sig,
            walk,
            row,
        }
    }

    /// Goes to the first entry over states of these presences that comes after the last one; where there is none, it stays.
    pub fn advance(&mut self, presences: &[u16]) -> bool
        requires { length presences.now < 2 ^ 32 }
        ensures signature { self.new.signature ≡ self.old.signature }
        ensures columns { self.new.columns ≡ self.old.columns }
        ensures next { result ≡ true → IsNextEntry self.old.signature self.old.columns
            presences.now self.old.last self.new.last }
        ensures none { result ≡ false → IsLastEntry self.old.signature self.old.columns
            presences.now self.old.last }
        ensures stays { result ≡ false → self.new.last ≡ self.old.last }
    {
        self.walk
            .advance_row(self.signature, presences, &mut self.row)
    }

    /// The last entry.
    pub fn row(&self) -> &Row
        ensures { result.now ≡ self.now.last }
    {
        &self.row
    }

    /// The first entry over states of these presences that comes after the last one given.
    pub fn next(&mut self, presences: &[u16]) -> Option<Row>
        requires { length presences.now < 2 ^ 32 }
        ensures signature { self.new.signature ≡ self.old.signature }
        ensures columns { self.new.columns ≡ self.old.columns }
        ensures next { IfSome result (λ e.
            IsNextEntry self.old.signature self.old.columns presences.now self.old.last e) }
        ensures given { IfSome result (λ e. self.new.last ≡ e) }
        ensures none { IfNone result
            (IsLastEntry self.old.signature self.old.columns presences.now self.old.last) }
        ensures stays { IfNone result (self.new.last ≡ self.old.last) }
    {
        if self.advance(presences) {
            Some(self.row)
        } else {
            None
        }
    }
}
