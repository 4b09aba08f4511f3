//! The nodes of the terms that are found, held against the table of the formula.
ghost use Rattle.std.specs.Prelude.{◌≡◌, ◌↔◌, ℕ, ◌+◌, ◌-◌, ◌<◌, ◌≤◌, ◌^◌, length, slice_index, IsTrue, true};
ghost use Rattle.fort_steps.specs.OpenView.{as_open};
ghost use Rattle.fort_open_checker.specs.NodeStates.{HasNodeRoom, AreNodesJudged};
ghost use Rattle.fort_open_checker.specs.OpenOutcomeView.{as_outcome};

use crate::nodes::NodeRoom;
use crate::outcome::{Unconfirmed, other_claim};
use fort_steps::{Claim, OpenCertificate};
use fort_table::Table;

/// The number of the form of node `k`.
pub(crate) fn node_form(certificate: &OpenCertificate, k: usize) -> u32
    requires { certificate.now.first + 1 + length certificate.now.steps.items + k < 2 ^ 32 }
    ensures { result ≡ certificate.now.first + 1 + length certificate.now.steps.items + k }
{
    certificate.first + 1 + certificate.steps.len() as u32 + k as u32
}

/// Whether the last of these states is accepting.
fn accepts_last<T: Table>(table: &T, states: &[u32]) -> bool
    requires { (k : ℕ) → k < length states.now
        → slice_index states.now k < length (T.table table.now).presences }
    ensures { IsTrue result ↔ ((0 < length states.now) × ((T.table table.now).accepting
        (slice_index states.now (length states.now - 1)) ≡ true)) }
{
    match states.last() {
        Some(state) => table.is_final(*state),
        None => false,
    }
}

/// Checks nodes, the last of which is to be one that the table accepts.
pub(crate) fn check_nodes<T: Table>(
    table: &T,
    certificate: &OpenCertificate,
    room: &mut NodeRoom,
) -> Result<Claim, Unconfirmed>
    requires forms { certificate.now.first + 1 + length certificate.now.steps.items
        + length certificate.now.nodes.items < 2 ^ 32 }
    requires room { HasNodeRoom (length certificate.now.nodes.items) room.old }
    ensures judged { AreNodesJudged (T.table table.now) (as_open certificate.now)
        (as_outcome result) }
    ensures room { (n : ℕ) → HasNodeRoom n room.old → HasNodeRoom n room.new }
{
    // its clause says that the table is lawful
    let _columns = table.columns();
    room.clear();
    for k in 0..certificate.nodes.len() {
        if !room.take(table, &certificate.nodes[k]) {
            return Err(Unconfirmed::NoEntry {
                form: node_form(certificate, k),
            });
        }
    }
    if accepts_last(table, &room.states) {
        Ok(Claim::Found)
    } else {
        Err(other_claim(certificate))
    }
}
