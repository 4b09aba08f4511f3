//! What keys of maps and sets have to do.
use indexmap::IndexSet;
use std::alloc::Global;
use std::hash::Hash;
use std::process::Abort;
use std::test::Fail;

/// That keys in ascending order compare with their copies as their places do, and a hashed set knows them by these.
pub fn check_keys<K: Ord + Hash + Drop>(
    rt: &impl Abort,
    alloc: Global,
    keys: Vec<K>,
    copies: Vec<K>,
) -> Result<(), Fail> {
    for (i, key) in keys.iter().enumerate() {
        for (j, copy) in copies.iter().enumerate() {
            assert_eq!(rt; key.partial_cmp(copy), Some(i.cmp(&j)), "{i} {j}");
            assert_eq!(rt; *key == *copy, i == j, "{i} {j}");
        }
    }
    let mut numbers = IndexSet::new(alloc);
    for key in keys {
        assert!(rt; numbers.insert(key)?);
    }
    for (i, copy) in copies.iter().enumerate() {
        assert_eq!(rt; numbers.get_index_of(copy), Some(i));
    }
    Ok(())
}
