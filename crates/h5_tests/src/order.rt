//! The order of local names.
use h5_names::LocalName;
use std::cmp::Ordering;
use std::test::Fail;

// Both orders of two names that differ.
fn are_ordered<T: Ord>(left: &T, right: &T, order: Ordering) -> bool {
    left != right && left.cmp(right) == order && right.cmp(left) == order.reverse()
}

// The first of each pair is a name that HTML knows.
#[test]
fn local_names_compare_as_their_texts(rt: HostRuntime) -> Result<(), Fail> {
    let alloc = rt.alloc();
    for &(known, text, order) in &[
        ("div", "divv", Ordering::Less),
        ("search", "seach", Ordering::Greater),
    ] {
        let known = LocalName::new(alloc, known)?;
        let other = LocalName::new(alloc, text)?;
        assert!(rt; are_ordered(&known, &other, order), "{text}");
    }
    Ok(())
}
