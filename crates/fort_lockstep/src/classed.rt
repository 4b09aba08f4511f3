//! Tables whose targets are told by the classes of their states.
ghost use Rattle.std.specs.Prelude.{◌≡◌, ◌<◌, ◌^◌, length, IfOk};
ghost use Rattle.fort_tables.specs.Tables.{Listed, listed_table};
ghost use Rattle.fort_target_lists.specs.ClassLists.{IsClassListOf};
ghost use Rattle.fort_lockstep.specs.TableParts.{IsMadeOf};

use crate::dta::{Dta, Shared};
use fort_table::EntryList;
use fort_target_lists::{ClassList, TargetList};
use fort_terms::Signature;
use std::alloc::{AllocError, Global};
use std::rc::Rc;

impl Dta {
    /// The table with this signature and these states, each with its presence, its first entry and whether it is accepting, whose
    /// targets these are, by the classes of its states.
    pub fn of_classes(
        alloc: Global,
        signature: Signature,
        columns: usize,
        presences: Vec<u16>,
        first_entries: EntryList,
        finals: Vec<bool>,
        list: ClassList,
    ) -> Result<Dta, AllocError>
        requires few { length presences.items < 2 ^ 32 }
        requires finals { length finals.items ≡ length presences.items }
        requires table { (t : Listed)
            × IsMadeOf t signature columns presences.items first_entries finals.items
            × IsClassListOf (listed_table t) list }
        ensures { IfOk result (λ d. (t : Listed)
            → IsMadeOf t signature columns presences.items first_entries finals.items
            → IsClassListOf (listed_table t) list → d ≡ t) }
    {
        let own = Shared {
            signature,
            columns,
            presences,
            first_entries,
            list: TargetList::of_classes(alloc, list),
        };
        let shared = Rc::new(alloc, own)?;
        Ok(Dta { shared, finals })
    }
}
