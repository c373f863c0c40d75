use gr_value::{ItemList, drawn};
use std::test::Fail;

// A list of a vector that was filled where there was room, so that no push took memory.
#[test]
fn a_list_is_filled_in_room_that_was_made(rt: HostRuntime) -> Result<(), Fail> {
    let mut entries: Vec<u64> = Vec::with_capacity(rt.alloc(), 2)?;
    entries.push_reserved(5);
    entries.push_reserved(7);
    let list = ItemList::from_vec(entries);
    assert_eq!(rt; list.as_slice(), [5, 7].as_slice());
    assert_eq!(rt; list.into_vec().len(), 2);
    Ok(())
}

// The first numbers of `minstd_rand` of C++.
#[test]
fn numbers_are_drawn(rt: HostRuntime) -> Result<(), Fail> {
    assert_eq!(rt; drawn(1), 48271);
    assert_eq!(rt; drawn(48271), 182605794);
    assert_eq!(rt; drawn(182605794), 1291394886);
    Ok(())
}
