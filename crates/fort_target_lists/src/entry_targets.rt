//! What tells the targets of a table.
ghost use Rattle.std.specs.Prelude.{◌≡◌, [], ◌∷◌, ◌++◌, length, OnOk};
ghost use Rattle.fort_tables.specs.Tuples.{TupleSymbol, IsTupleSymbol, symbol_kids};
ghost use Rattle.fort_tables.specs.Entries.{entry};
ghost use Rattle.fort_tables.specs.Tables as tables;
ghost use Rattle.fort_target_lists.specs.Flats as flats;
ghost use Rattle.fort_target_lists.specs.ToldTables.{AreAllButLast};

use fort_tuple_symbols::TupleSym;
use std::alloc::AllocError;

/// Tells the targets of a table's entries, of one tuple symbol after another.
pub trait EntryTargets {
    /// It tells the targets of this table.
    ghost tells: { Self → tables.Table → Type 0 };

    /// It is turned to this tuple symbol, and tells the targets of the table's entries under it.
    ghost turned: { Self → tables.Table → TupleSymbol → Type 0 };

    /// Turns to a tuple symbol. After an error it cannot be asked again.
    fn turn(&mut self, symbol: &TupleSym) -> Result<(), AllocError>
        requires { (body : tables.Table) × tells self.old body
            × IsTupleSymbol body.signature body.columns symbol.now }
        ensures tells { OnOk result ((body : tables.Table) → tells self.old body
            → tells self.new body) }
        ensures turned { OnOk result ((body : tables.Table) → tells self.old body
            → IsTupleSymbol body.signature body.columns symbol.now
            → turned self.new body symbol.now) };

    /// Appends the target of the entry without children.
    fn push_target(&self, laid: &mut Vec<u32>) -> Result<(), AllocError>
        requires { (body : tables.Table) × (f : TupleSymbol) × turned self.now body f
            × (symbol_kids body.signature f ≡ 0) }
        ensures { OnOk result ((body : tables.Table) (f : TupleSymbol) → turned self.now body f
            → symbol_kids body.signature f ≡ 0
            → laid.new.items ≡ laid.old.items ++ body.target (entry f []) ∷ []) };

    /// Appends the targets over these child states, the last child's being left, with each state that may be the last child in turn.
    fn push_row(&self, kids: &[u32], laid: &mut Vec<u32>) -> Result<(), AllocError>
        requires { (body : tables.Table) × (f : TupleSymbol) × turned self.now body f
            × AreAllButLast body f kids.now }
        ensures { OnOk result ((body : tables.Table) (f : TupleSymbol) → turned self.now body f
            → AreAllButLast body f kids.now
            → laid.new.items ≡ laid.old.items ++ flats.laid body f kids.now (length kids.now) 1) };
}
