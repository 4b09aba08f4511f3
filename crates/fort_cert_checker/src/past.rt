//! The answers of earlier parts.
ghost use Rattle.std.specs.Prelude.{◌≡◌, ℕ, Bool, List, length, IfSome, IfNone};
ghost use Rattle.fort_tables.specs.Tables as tables;
ghost use Rattle.fort_tables.specs.Projections.{some_below};
ghost use Rattle.fort_parts.specs.PartAnswers as parts;
ghost use Rattle.fort_parts.specs.PartSteps.{operand_of};
ghost use Rattle.fort_target_lists.specs.LayRooms.{HasLayRoom};
ghost use Rattle.fort_target_lists.specs.TargetLists.{HasListRoom};
ghost use Rattle.fort_products.specs.Operands as algebra;
ghost use Rattle.fort_check_steps.specs.Turned.{turned_table};
ghost use Rattle.fort_cert_checker.specs.Pasts.{IsTableAt, IsTruthAt, IsAnswerAt, as_answer, steps_of};
ghost use Rattle.fort_cert_checker.specs.OperandLists.{FitsList, HasTableRoom, HasRoomFor, IsLaidFor, IsLaidListOf};
ghost use Rattle.fort_target_lists.specs.declared.states.LayRoom.{LayRoom};
ghost use Rattle.fort_target_lists.specs.declared.target_list.TargetList.{TargetList};

use crate::about::{targets_of, value_of};
use crate::plan::{Plan, Source};
use fort_check_steps::{PartRoom, PartTable};
use fort_products::Operand;
use fort_steps::Step;
use fort_table::Table;
use fort_target_lists::{LayRoom, TargetList};
use fort_terms::Signature;

/// The steps, the plans of parts, and the rooms of those before some part.
#[derive(Clone, Copy)]
pub(crate) struct Past<'a> {
    pub signature: &'a Signature,
    pub steps: &'a [Step],
    pub plans: &'a [Plan],
    pub rooms: &'a [PartRoom],
}

/// The answer of an earlier part.
#[derive(Drop)]
pub(crate) enum PastAnswer<'a> {
    Truth(bool),
    Auto(PartTable<'a>),
}

impl<'a> Past<'a> {
    /// The table of a part with columns.
    pub(crate) fn table(&self, source: Source) -> PartTable<'a>
        requires { (table : tables.Table) × IsTableAt self.now source table }
        ensures is { (table : tables.Table) → IsTableAt self.now source table
            → turned_table result ≡ table }
        ensures room { (table : tables.Table) → IsTableAt self.now source table
            → (list : TargetList) (lay : LayRoom) → FitsList (steps_of self.now) source list lay
            → HasTableRoom result list lay }
    {
        let plan = &self.plans[source.part as usize];
        PartTable::new(
            self.signature,
            plan.columns,
            targets_of(self.steps, source.part),
            &self.rooms[source.part as usize],
            source.turns,
        )
    }

    /// The truth of a part without columns.
    pub(crate) fn truth(&self, source: Source) -> bool
        ensures { (truth : Bool) → IsTruthAt self.now source truth → result ≡ truth }
    {
        value_of(self.steps, source.part)
    }

    pub(crate) fn answer(&self, source: Source) -> PastAnswer<'a>
        requires { (answer : parts.Answer) × IsAnswerAt self.now source answer }
        ensures is { (answer : parts.Answer) → IsAnswerAt self.now source answer
            → as_answer result ≡ answer }
        ensures room { (answer : parts.Answer) → IsAnswerAt self.now source answer
            → (list : TargetList) (lay : LayRoom) → FitsList (steps_of self.now) source list lay
            → HasRoomFor result list lay }
    {
        let columns = self.plans[source.part as usize].columns;
        if columns == 0 {
            PastAnswer::Truth(self.truth(source))
        } else {
            PastAnswer::Auto(self.table(source))
        }
    }
}

/// An answer as an operand of a product.
pub(crate) fn factor<'b, 'a>(
    answer: &'b PastAnswer<'a>,
    places: &'b [usize],
) -> Operand<'b, PartTable<'a>>
    ensures { algebra.operand_of turned_table result ≡ operand_of (as_answer answer.now)
        places.now }
{
    match answer {
        PastAnswer::Truth(truth) => Operand::Truth(*truth),
        PastAnswer::Auto(table) => Operand::Auto(table, places),
    }
}

/// Lays an answer's targets, where it is a table, in room that is there. It takes no memory.
pub(crate) fn lay(answer: &PastAnswer<'_>, list: &mut TargetList, room: &mut LayRoom)
    requires { HasRoomFor answer.now list.old room.old }
    ensures laid { IsLaidFor (as_answer answer.now) list.new }
    ensures list_room { (n k : ℕ) → HasListRoom n k list.old → HasListRoom n k list.new }
    ensures room { (n : ℕ) → HasLayRoom n room.old → HasLayRoom n room.new }
{
    match answer {
        PastAnswer::Truth(_) => {}
        PastAnswer::Auto(table) => table.lay(list, room),
    }
}

/// The list of an answer's targets, where it is a table.
pub(crate) fn laid_list<'b>(answer: &PastAnswer<'_>, list: &'b TargetList) -> Option<&'b TargetList>
    requires { IsLaidFor (as_answer answer.now) list.now }
    ensures list { (places : List ℕ) → IfSome result (λ l.
        IsLaidListOf (operand_of (as_answer answer.now) places) l.now) }
    ensures none { IfNone result ((table : tables.Table)
        → as_answer answer.now ≡ parts.OfTable table → ⊥) }
{
    match answer {
        PastAnswer::Truth(_) => None,
        PastAnswer::Auto(_) => Some(list),
    }
}

/// Whether some state is accepting.
pub fn accepts_some<T: Table>(table: &T) -> bool
    ensures { result ≡ some_below (length (T.table table.now).presences)
        (T.table table.now).accepting }
{
    for q in 0..table.states() {
        if table.is_final(q) {
            return true;
        }
    }
    false
}
