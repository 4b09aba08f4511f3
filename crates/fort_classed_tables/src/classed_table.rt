//! Finished tables with the classes of their states.
ghost use Rattle.std.specs.Prelude.{◌≡◌, IfOk};
ghost use Rattle.fort_tables.specs.Tables.{listed_table};
ghost use Rattle.fort_target_lists.specs.TargetLists.{IsTargetListOf};
ghost use Rattle.fort_classed_tables.specs.TableViews.{AreTableViews, AreTableViews-prop};

use crate::counted::{Counted, count_states};
use crate::place_views::{PlaceViews, views_of};
use crate::table_views::TableViews;
use fort_lockstep::Dta;
use fort_table::Table;
use fort_table_classes::TableClasses;
use fort_target_lists::TargetList;
use fort_terms::Signature;
use fort_tuple_symbols::TupleSym;
use std::alloc::{AllocError, Global};

/// A table, and at each place under a tuple symbol its states in classes: those of one class have the same targets under that tuple
/// symbol, whatever the other children are.
#[derive(Drop)]
pub struct ClassedTable<'a> {
    table: &'a Dta,
    list: &'a TargetList,
    views: TableViews<'a>,
    ghost views_are: { AreTableViews (listed_table table.now) list.now views } by { AreTableViews-prop (listed_table table.now) list.now views },
}

impl<'a> ClassedTable<'a> {
    /// By the classes that the table keeps; where it keeps none they are found, by some reads of each target for each child.
    pub fn new(alloc: Global, table: &'a Dta) -> Result<ClassedTable<'a>, AllocError>
        ensures { IfOk result (λ c. c.table.now ≡ table.now) }
    {
        let list = table.list();
        if let Some(kept) = list.by_classes() {
            let views = TableViews::Kept(kept);
            return Ok(ClassedTable { table, list, views });
        }
        let Some(flat) = list.flat() else {
            // a table without entries has no states
            let none = PlaceViews::new(alloc)?;
            let views = TableViews::Found(none);
            return Ok(ClassedTable { table, list, views });
        };
        let counts = count_states(alloc, table)?;
        let counted = Counted {
            table,
            flat,
            counts: counts.as_slice(),
        };
        let found = views_of(alloc, &counted)?;
        let views = TableViews::Found(found);
        Ok(ClassedTable { table, list, views })
    }

    /// The targets of all entries in one list.
    pub fn list(&self) -> &TargetList
        ensures { IsTargetListOf (listed_table self.now.table.now) result.now }
    {
        self.list
    }
}

impl<'a> Table for ClassedTable<'a> {
    ghost table = { λ c. listed_table c.table.now };

    fn signature(&self) -> &Signature {
        self.table.signature()
    }

    fn columns(&self) -> usize {
        self.table.columns()
    }

    fn states(&self) -> u32 {
        self.table.states()
    }

    fn presence(&self, q: u32) -> u16 {
        self.table.presence(q)
    }

    fn is_final(&self, q: u32) -> bool {
        self.table.is_final(q)
    }

    fn target(&self, sym: &TupleSym, kids: &[u32]) -> u32 {
        self.table.target(sym, kids)
    }
}

impl<'a> TableClasses for ClassedTable<'a> {
    ghost use Rattle.fort_classed_tables.specs.TableViews.{number_in, leader_by, lead_by, few_views, led_by_views};
    ghost use Rattle.std.specs.Prelude.{refl};
    ghost use Rattle.fort_tables.specs.Tables.{listed_table};

    ghost lead = { λ c. lead_by (listed_table c.table.now) c.views };

    ghost view_number = { λ c. number_in (listed_table c.table.now) c.views };

    ghost leader_in = { λ c. leader_by c.views };

    ghost few = { λ c f j under. few_views (listed_table c.table.now) c.list.now c.views
        c.views_are f j under };

    ghost leads = { λ c f j q _. refl };

    ghost is_led = { λ c. led_by_views (listed_table c.table.now) c.list.now c.views c.views_are };

    fn view(&self, symbol: &TupleSym, place: usize) -> u32 {
        match &self.views {
            TableViews::Kept(list) => list.view(list.number(symbol), place),
            TableViews::Found(views) => match self.list.flat() {
                Some(flat) => views.view(flat.number(symbol), place),
                None => 0,
            },
        }
    }

    fn leader(&self, view: u32, state: u32) -> u32 {
        match &self.views {
            TableViews::Kept(list) => list.leader(view, state),
            TableViews::Found(views) => views.leader(view, state),
        }
    }
}
