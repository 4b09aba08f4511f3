//! What tells the targets of a table that are kept by classes.
ghost use Rattle.std.specs.Prelude.{◌≡◌, ℕ, ◌<◌, ◌++◌, map, length, slice_index, OnOk};

use crate::class_list::ClassList;
use crate::entry_targets::EntryTargets;
use fort_tuple_symbols::TupleSym;
use std::alloc::AllocError;

/// Tells the targets of a table that are kept by classes.
#[derive(Drop)]
pub struct ClassReader<'a> {
    pub(crate) list: &'a ClassList,
    /// The number of the tuple symbol to which it is turned.
    pub(crate) number: usize,
}

impl<'a> ClassReader<'a> {
    /// It is turned to no tuple symbol.
    pub fn new(list: &'a ClassList) -> ClassReader<'a>
        ensures { result.list.now ≡ list.now }
    {
        ClassReader { list, number: 0 }
    }
}

/// Appends for each class its target.
fn push_classes(row: &[u32], classes: &[u32], laid: &mut Vec<u32>) -> Result<(), AllocError>
    requires { (i : ℕ) → i < length classes.now
        → slice_index classes.now i < length row.now }
    ensures { OnOk result (laid.new.items
        ≡ laid.old.items ++ map (λ c. slice_index row.now c) classes.now) }
{
    laid.reserve(classes.len())?;
    for class in classes {
        laid.push_reserved(row[*class as usize]);
    }
    Ok(())
}

impl<'a> EntryTargets for ClassReader<'a> {
    ghost use Rattle.fort_target_lists.specs.ClassLists.{IsClassListOf, IsListAt};

    ghost tells = { λ s body. IsClassListOf body s.list.now };

    ghost turned = { λ s body f. IsListAt body s.list.now f s.number };

    fn turn(&mut self, symbol: &TupleSym) -> Result<(), AllocError> {
        self.number = self.list.number(symbol);
        Ok(())
    }

    fn push_target(&self, laid: &mut Vec<u32>) -> Result<(), AllocError> {
        laid.push(self.list.target(self.number, &[]))?;
        Ok(())
    }

    fn push_row(&self, kids: &[u32], laid: &mut Vec<u32>) -> Result<(), AllocError> {
        let classes = self.list.classes(self.list.view(self.number, kids.len()));
        push_classes(self.list.row(self.number, kids), classes, laid)
    }
}
