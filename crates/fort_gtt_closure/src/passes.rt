//! Passes over all pairs of states until one of them lists nothing.
ghost use Rattle.std.specs.Prelude.{◌≡◌, ◌↔◌, ◌<◌, ◌+◌, ◌*◌, ℕ, List, IfOk, OnOk};
ghost use Rattle.fort_theory.specs.Signatures.{Signature};
ghost use Rattle.fort_reachability.specs.Transducers.{FitsTransducer};
ghost use Rattle.fort_reachability.specs.ClosureTables.{InClosure};
ghost use Rattle.fort_reachability.specs.Reachability.{Reaches};
ghost use Rattle.fort_transducers.specs.AgttView.{NamesItsStates, transducer_of};
ghost use Rattle.fort_gtt_closure.specs.declared.entry.Entry.{Entry};
ghost use Rattle.fort_gtt_closure.specs.Reasons.{IsListed, IsNumbered};
ghost use Rattle.fort_gtt_closure.specs.Passes.{IsListOfPasses, ListsEachOnce};
ghost use Rattle.fort_gtt_closure.specs.Progress.{IsVisited, Progress};
ghost use Rattle.fort_gtt_closure.specs.Ready.{IsGiven, IsReady};

use crate::agenda::Agenda;
use crate::entry::{Closed, Entry};
use crate::grid::Grid;
use crate::links::Links;
use crate::reasons::{Inhabited, first_reason};
use fort_transducers::Agtt;
use std::alloc::{AllocError, Global};

/// The pairs listed so far, and those that wait for their visit.
#[derive(Drop)]
struct PairListing {
    grid: Grid,
    agenda: Agenda,
}

/// The pairs of a right and a left state of which the first reaches the second, in the order in
/// which passes over all pairs find them.
pub fn close(alloc: Global, agtt: &Agtt) -> Result<Closed, AllocError>
    requires named { NamesItsStates agtt.now }
    requires numbered { IsNumbered agtt.now }
    ensures passes { IfOk result (λ closed. IsListOfPasses agtt.now closed.entries.items) }
    ensures once { IfOk result (λ closed. ListsEachOnce closed.entries.items) }
    ensures table { IfOk result (λ closed. (p q : ℕ) →
        IsListed closed.entries.items p q ↔ InClosure (transducer_of agtt.now) p q) }
    ensures reachability { IfOk result (λ closed. (signature : Signature) →
        FitsTransducer signature (transducer_of agtt.now) → (p q : ℕ) →
        IsListed closed.entries.items p q ↔ Reaches signature (transducer_of agtt.now) p q) }
{
    let inhabited = Inhabited {
        left: agtt.left.inhabited(alloc)?,
        right: agtt.right.inhabited(alloc)?,
    };
    let links = Links::new(alloc, agtt)?;
    let mut listing = PairListing {
        grid: Grid::new(alloc, agtt.right.states, agtt.left.states)?,
        agenda: Agenda::new(alloc, agtt)?,
    };
    loop {
        let before = listing.grid.len();
        pass(agtt, &inhabited, &links, &mut listing)?;
        if listing.grid.len() == before {
            return Ok(Closed {
                entries: listing.grid.into_entries(),
            });
        }
    }
}

fn pass(
    agtt: &Agtt,
    inhabited: &Inhabited,
    links: &Links,
    listing: &mut PairListing,
) -> Result<(), AllocError>
    requires given { IsGiven agtt.now inhabited.now links.now }
    requires ready { IsReady agtt.now listing.old }
    ensures progress { OnOk result ((start : List Entry) →
        Progress agtt.now start listing.old.grid.entries.items 0 → Progress agtt.now start
        listing.new.grid.entries.items (agtt.now.right.states * agtt.now.left.states)) }
    ensures ready { OnOk result (IsReady agtt.now listing.new) }
{
    for p in 0..agtt.right.states {
        row(agtt, inhabited, links, listing, p)?;
    }
    Ok(())
}

fn row(
    agtt: &Agtt,
    inhabited: &Inhabited,
    links: &Links,
    listing: &mut PairListing,
    p: u32,
) -> Result<(), AllocError>
    requires given { IsGiven agtt.now inhabited.now links.now }
    requires ready { IsReady agtt.now listing.old }
    requires there { p < agtt.now.right.states }
    ensures progress { OnOk result ((start : List Entry) →
        Progress agtt.now start listing.old.grid.entries.items (p * agtt.now.left.states) →
        Progress agtt.now start listing.new.grid.entries.items ((p + 1) * agtt.now.left.states)) }
    ensures ready { OnOk result (IsReady agtt.now listing.new) }
{
    for q in 0..agtt.left.states {
        visit(agtt, inhabited, links, listing, p, q)?;
    }
    Ok(())
}

/// A pair that doesn't wait isn't due.
fn visit(
    agtt: &Agtt,
    inhabited: &Inhabited,
    links: &Links,
    listing: &mut PairListing,
    p: u32,
    q: u32,
) -> Result<(), AllocError>
    requires given { IsGiven agtt.now inhabited.now links.now }
    requires ready { IsReady agtt.now listing.old }
    requires right { p < agtt.now.right.states }
    requires left { q < agtt.now.left.states }
    ensures visited { OnOk result
        (IsVisited agtt.now p q listing.old.grid.entries.items listing.new.grid.entries.items) }
    ensures ready { OnOk result (IsReady agtt.now listing.new) }
{
    if listing.agenda.waits(p, q) {
        look(agtt, inhabited, links, listing, p, q)?;
    }
    Ok(())
}

/// Lists the pair if it isn't listed and follows.
fn look(
    agtt: &Agtt,
    inhabited: &Inhabited,
    links: &Links,
    listing: &mut PairListing,
    p: u32,
    q: u32,
) -> Result<(), AllocError>
    requires given { IsGiven agtt.now inhabited.now links.now }
    requires ready { IsReady agtt.now listing.old }
    requires right { p < agtt.now.right.states }
    requires left { q < agtt.now.left.states }
    ensures visited { OnOk result
        (IsVisited agtt.now p q listing.old.grid.entries.items listing.new.grid.entries.items) }
    ensures ready { OnOk result (IsReady agtt.now listing.new) }
{
    listing.agenda.rest(p, q);
    if listing.grid.has(p, q) {
        return Ok(());
    }
    if let Some(why) = first_reason(agtt, inhabited, links, &listing.grid, p, q) {
        listing.grid.add(Entry { p, q, why })?;
        listing.agenda.wake(links, &listing.grid, p, q)?;
    }
    Ok(())
}
