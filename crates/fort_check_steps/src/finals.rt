//! The acceptance of states by their labels.
ghost use Rattle.std.specs.Prelude.{◌≡◌, ◌<◌, ◌≤◌, ◌^◌, [], map, length, vec_capacity};
ghost use Rattle.fort_tables.specs.Labels.{IsLabel, AreLabels, final_by};
ghost use Rattle.fort_tables.specs.LabelRules.{label_of};

use crate::state_labels::StateLabels;
use fort_labels::LocalRule;

/// Whether a label has all columns present and is accepted.
fn is_final<R: LocalRule>(rule: &R, label: &[u64]) -> bool
    requires { IsLabel (R.rule rule.now).signature (R.rule rule.now).columns
        (label_of (R.rule rule.now)) label.now }
    ensures { result ≡ final_by (R.rule rule.now).columns (R.accepting rule.now) label.now }
{
    let full = (1u64 << rule.columns()) - 1;
    if label.first().copied().unwrap_or(0) != full {
        return false;
    }
    rule.accepts(label)
}

/// Puts the acceptance of each state, by the way of a label.
pub fn put_finals<R: LocalRule>(
    rule: &R,
    rows: &StateLabels,
    out: &mut [u64],
    finals: &mut Vec<bool>,
)
    requires labels { AreLabels (R.rule rule.now).signature (R.rule rule.now).columns
        (label_of (R.rule rule.now)) rows.now.labels }
    requires few { length rows.now.labels < 2 ^ 32 }
    requires width { rows.now.width ≡ R.word_count rule.now }
    requires words { length out.old ≡ R.word_count rule.now }
    requires empty { finals.old.items ≡ [] }
    requires spare { length rows.now.labels ≤ vec_capacity finals.old }
    ensures finals { finals.new.items ≡ map (final_by (R.rule rule.now).columns
        (R.accepting rule.now)) rows.now.labels }
    ensures capacity { vec_capacity finals.new ≡ vec_capacity finals.old }
{
    for q in 0..rows.len() {
        rows.write(q as u32, out);
        finals.push_reserved(is_final(rule, out));
    }
}
