// The pending places, when nothing is pending.
use crate::pending::Pending;
use envelope::name::Name;
use std::test::Fail;

#[test]
fn no_place_is_taken_at_first(rt: HostRuntime) -> Result<(), Fail> {
    let pending = Pending::new(rt.alloc())?;
    assert!(rt; !pending.is_full());
    assert!(rt; pending.find(&Name { bytes: [7; 32] }).is_none());
    Ok(())
}
