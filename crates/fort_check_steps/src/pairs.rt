//! The reasons by which a pair of patterns follows from listed ones, by numbers.
ghost use Rattle.std.specs.Prelude.{◌≡◌, ◌<◌, ◌^◌, length, get_or, None};
ghost use Rattle.std.specs.List.{list_any};
ghost use Rattle.fort_findings.specs.FindingView.{as_why};
ghost use Rattle.fort_check_steps.specs.PairTests.{has_pair as has_pair_lem, all_pairs, by_any, by_kids, by_rule, by_reason, follows as follows_lem};

use fort_findings::Reason;
use fort_label_bits::{Numbered, RulePlaces};
use fort_labels::has_bit;

/// Rules and the patterns of their sides, by numbers.
#[derive(Drop)]
pub struct PairRules {
    pub rights: Vec<Numbered>,
    pub lefts: Vec<Numbered>,
    pub rules: Vec<RulePlaces>,
}

/// Whether a pair is listed, among those of so many left patterns.
fn has_pair(lefts: usize, listed: &[u64], p: u32, q: u32) -> bool
    requires { lefts < 2 ^ 32 }
    ensures { result ≡ has_pair_lem lefts listed.now p q }
{
    has_bit(listed, p as usize * lefts + q as usize)
}

/// Whether the pairs of arguments are listed, one by one.
fn have_all(lefts: usize, listed: &[u64], ps: &[u32], qs: &[u32]) -> bool
    requires { lefts < 2 ^ 32 }
    ensures { result ≡ all_pairs (has_pair_lem lefts listed.now) ps.now qs.now }
{
    match (ps.split_first(), qs.split_first()) {
        (Some((p, ps)), Some((q, qs))) => {
            has_pair(lefts, listed, *p, *q) && have_all(lefts, listed, ps, qs)
        }
        (None, None) => true,
        _ => false,
    }
}

/// Whether one of two patterns is Any.
fn is_any(right: &Numbered, left: &Numbered) -> bool
    ensures { result ≡ by_any right.now left.now }
{
    right.sym.is_none() || left.sym.is_none()
}

/// Whether two patterns have one symbol, and their arguments are listed.
fn has_kids(right: &Numbered, left: &Numbered, lefts: usize, listed: &[u64]) -> bool
    requires { lefts < 2 ^ 32 }
    ensures { result ≡ by_kids (has_pair_lem lefts listed.now) right.now left.now }
{
    match (right.sym, left.sym) {
        (Some(f), Some(g)) => f == g && have_all(lefts, listed, &right.args, &left.args),
        _ => false,
    }
}

/// Whether a pair follows by a rule.
fn has_sides(rule: RulePlaces, p: u32, q: u32, lefts: usize, listed: &[u64]) -> bool
    requires { lefts < 2 ^ 32 }
    ensures { result ≡ by_rule (has_pair_lem lefts listed.now) p q rule }
{
    has_pair(lefts, listed, p, rule.left) && has_pair(lefts, listed, rule.right, q)
}

/// Whether a pair follows by some rule.
fn some_rule(rules: &[RulePlaces], p: u32, q: u32, lefts: usize, listed: &[u64]) -> bool
    requires { lefts < 2 ^ 32 }
    ensures { result ≡ list_any (by_rule (has_pair_lem lefts listed.now) p q) rules.now }
{
    for rule in rules {
        if has_sides(*rule, p, q, lefts, listed) {
            return true;
        }
    }
    false
}

impl PairRules {
    /// Whether a pair is listed.
    pub fn is_listed(&self, p: u32, q: u32, listed: &[u64]) -> bool
        requires { length self.now.lefts.items < 2 ^ 32 }
        ensures { result ≡ has_pair_lem (length self.now.lefts.items) listed.now p q }
    {
        has_pair(self.lefts.len(), listed, p, q)
    }

    /// Whether a pair follows from those listed for this reason.
    pub fn follows_by(&self, p: u32, q: u32, why: Reason, listed: &[u64]) -> bool
        requires few { length self.now.lefts.items < 2 ^ 32 }
        requires right { p < length self.now.rights.items }
        requires left { q < length self.now.lefts.items }
        ensures { result ≡ by_reason (has_pair_lem (length self.now.lefts.items) listed.now)
            (get_or self.now.rights.items p None) (get_or self.now.lefts.items q None)
            self.now.rules.items p q (as_why why) }
    {
        let right = &self.rights[p as usize];
        let left = &self.lefts[q as usize];
        match why {
            Reason::Any => is_any(right, left),
            Reason::Kids => has_kids(right, left, self.lefts.len(), listed),
            Reason::Rule(k) => {
                (k as usize) < self.rules.len()
                    && has_sides(self.rules[k as usize], p, q, self.lefts.len(), listed)
            }
        }
    }

    /// Whether a pair follows from those listed.
    pub fn follows(&self, p: u32, q: u32, listed: &[u64]) -> bool
        requires few { length self.now.lefts.items < 2 ^ 32 }
        requires right { p < length self.now.rights.items }
        requires left { q < length self.now.lefts.items }
        ensures { result ≡ follows_lem (has_pair_lem (length self.now.lefts.items) listed.now)
            (get_or self.now.rights.items p None) (get_or self.now.lefts.items q None)
            self.now.rules.items p q }
    {
        let right = &self.rights[p as usize];
        let left = &self.lefts[q as usize];
        let lefts = self.lefts.len();
        if is_any(right, left) || has_kids(right, left, lefts, listed) {
            return true;
        }
        some_rule(&self.rules, p, q, lefts, listed)
    }
}
