//! Variables that stand twice in the two sides of a rule.
ghost use Rattle.std.specs.Prelude.{ℕ, IfSome, IfNone, Contains, nat_eq};
ghost use Rattle.std.specs.List.{IsDistinct};
ghost use Rattle.fort_terms.specs.RuleFaults.{IsFirstRepeated, IsFirstShared};
ghost use Rattle.fort_terms.specs.Overlaps.{IsOverlap, OverlapNowhere};

/// A variable that stands twice.
#[derive(Clone, Copy)]
pub enum Overlap {
    InLeft(u32),
    InRight(u32),
    Between(u32),
}

/// The first reason against a rule with these variables in its sides.
pub fn first_overlap(left: &[u32], right: &[u32]) -> Option<Overlap>
    ensures overlap { IfSome result (IsOverlap left.now right.now) }
    ensures none { IfNone result (OverlapNowhere left.now right.now) }
{
    if let Some(variable) = first_repeated(left) {
        return Some(Overlap::InLeft(variable));
    }
    if let Some(variable) = first_repeated(right) {
        return Some(Overlap::InRight(variable));
    }
    match first_shared(left, right) {
        Some(variable) => Some(Overlap::Between(variable)),
        None => None,
    }
}

/// The first variable that is met again.
fn first_repeated(variables: &[u32]) -> Option<u32>
    ensures repeated { IfSome result (IsFirstRepeated variables.now) }
    ensures distinct { IfNone result (IsDistinct nat_eq variables.now) }
{
    for (i, variable) in variables.iter().enumerate() {
        if variables[..i].contains(variable) {
            return Some(*variable);
        }
    }
    None
}

/// The first variable of the left side that stands in the right one too.
fn first_shared(left: &[u32], right: &[u32]) -> Option<u32>
    ensures shared { IfSome result (IsFirstShared left.now right.now) }
    ensures apart { IfNone result ((v : ℕ) → Contains left.now v → Contains right.now v → ⊥) }
{
    for variable in left {
        if right.contains(variable) {
            return Some(*variable);
        }
    }
    None
}
