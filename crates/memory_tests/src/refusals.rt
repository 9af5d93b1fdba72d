//! Tests that an allocation which fails becomes a refusal, with `?`.
use model::Refusal;
use std::alloc::Global;

// Pushes a number and clones the list. The two report an allocation failure differently, and each
// report becomes a refusal.
fn push_and_clone(alloc: Global) -> Result<usize, Refusal> {
    let mut numbers = Vec::new(alloc);
    numbers.push(12u8)?;
    let copy = numbers.clone()?;
    Ok(copy.len())
}

#[test]
fn failed_allocations_become_refusals(rt: HostRuntime) {
    assert_eq!(rt; push_and_clone(rt.alloc()), Ok(1));
}
