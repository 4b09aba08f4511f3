//! Combinations of classes, one class for each of up to 8 places.
ghost use Rattle.std.specs.Prelude.{◌≡◌, ℕ, ◌+◌, ◌<◌, ◌≤◌, List, length, take, MatchOption};
ghost use Rattle.fort_class_blocks.specs.Blocks.{AreClasses, cell_of, product};

/// The first combination, where there are so many classes at each place; none where a place has none.
pub fn first_classes(counts: &[u32]) -> Option<[u32; 8]>
    requires { length counts.now ≤ 8 }
    ensures { MatchOption result
        ((cs : List ℕ) → AreClasses counts.now cs → ⊥)
        (λ first. AreClasses counts.now (take (length counts.now) first)
        × (cell_of counts.now (take (length counts.now) first) ≡ 0)) }
{
    for count in counts {
        if *count == 0 {
            return None;
        }
    }
    Some([0; 8])
}

/// The next combination; none behind the last one.
pub fn next_classes(counts: &[u32], mut classes: [u32; 8]) -> Option<[u32; 8]>
    requires few { length counts.now ≤ 8 }
    requires classes { AreClasses counts.now (take (length counts.now) classes) }
    ensures { MatchOption result
        (cell_of counts.now (take (length counts.now) classes) + 1 ≡ product counts.now)
        (λ next. AreClasses counts.now (take (length counts.now) next)
        × (cell_of counts.now (take (length counts.now) next)
        ≡ cell_of counts.now (take (length counts.now) classes) + 1)) }
{
    for place in (0..counts.len()).rev() {
        if classes[place] + 1 < counts[place] {
            classes[place] += 1;
            return Some(classes);
        }
        classes[place] = 0;
    }
    None
}
