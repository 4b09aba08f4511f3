//! Terms and patterns as keys.
use super::keys::check_keys;
use fort_terms::{Pattern, Patterns, Sym, Term};
use std::alloc::{AllocError, Global};
use std::test::Fail;

/// Terms in ascending order: the number of a symbol and the places of its children among the earlier ones.
const TERMS: [(u16, &[usize]); 6] = [
    (0, &[]),
    (1, &[]),
    (2, &[0]),
    (2, &[0, 1]),
    (2, &[2]),
    (3, &[0]),
];

fn ascending_terms(alloc: Global) -> Result<Vec<Term>, Fail> {
    let mut terms: Vec<Term> = Vec::new(alloc);
    for (number, places) in TERMS {
        let mut kids = Vec::new(alloc);
        for place in places {
            let kid = terms.get(*place).ok_or("no such term")?;
            kids.push(kid.copy(alloc)?)?;
        }
        let sym = Sym(number);
        terms.push(Term { sym, kids })?;
    }
    Ok(terms)
}

/// A pattern for each of the terms, with any term in the place of the first one.
fn pattern_of(alloc: Global, term: &Term) -> Result<Pattern, AllocError> {
    if term.sym == Sym(0) {
        return Ok(Pattern::Any);
    }
    let mut args = Vec::new(alloc);
    for kid in &term.kids {
        args.push(pattern_of(alloc, kid)?)?;
    }
    Ok(Pattern::App(term.sym, Patterns::new(args)))
}

fn ascending_patterns(alloc: Global) -> Result<Vec<Pattern>, Fail> {
    let mut patterns = Vec::new(alloc);
    for term in ascending_terms(alloc)? {
        patterns.push(pattern_of(alloc, &term)?)?;
    }
    Ok(patterns)
}

#[test]
fn terms_as_keys(rt: HostRuntime) -> Result<(), Fail> {
    let alloc = rt.alloc();
    let terms = ascending_terms(alloc)?;
    let mut copies = Vec::new(alloc);
    for term in &terms {
        copies.push(term.copy(alloc)?)?;
    }
    check_keys(&rt, alloc, terms, copies)
}

#[test]
fn patterns_as_keys(rt: HostRuntime) -> Result<(), Fail> {
    let alloc = rt.alloc();
    let patterns = ascending_patterns(alloc)?;
    let mut copies = Vec::new(alloc);
    for pattern in &patterns {
        copies.push(pattern.copy(alloc)?)?;
    }
    check_keys(&rt, alloc, patterns, copies)
}

/// Each of the patterns alone.
fn ascending_lists(alloc: Global) -> Result<Vec<Patterns>, Fail> {
    let mut lists = Vec::new(alloc);
    for pattern in ascending_patterns(alloc)? {
        lists.push(Patterns::new(vec![in alloc; pattern]?))?;
    }
    Ok(lists)
}

#[test]
fn lists_of_patterns_as_keys(rt: HostRuntime) -> Result<(), Fail> {
    let alloc = rt.alloc();
    let lists = ascending_lists(alloc)?;
    check_keys(&rt, alloc, lists, ascending_lists(alloc)?)
}
