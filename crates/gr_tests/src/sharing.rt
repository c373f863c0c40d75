use gr_history::Ask;
use std::test::Fail;

// What threads may hand to each other and read at the same time.
fn may_be_shared<T: Send + Sync>() {}

// An ask is made of a key and values, so these may be shared too.
#[test]
fn asks_may_be_shared() -> Result<(), Fail> {
    may_be_shared::<Ask>();
    Ok(())
}
