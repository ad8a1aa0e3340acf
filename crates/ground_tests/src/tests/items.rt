//! Items go in and come out in one order.
use k42_items::Items;
use std::test::Fail;

#[test]
fn items_are_those_that_were_pushed(rt: HostRuntime) -> Result<(), Fail> {
    let mut items = Items::new(rt.alloc());
    assert!(rt; items.is_empty());
    for item in [3u32, 1, 2] {
        items.push(item)?;
    }
    assert!(rt; !items.is_empty());
    assert_eq!(rt; items.len(), 3);
    assert_eq!(rt; items.as_slice(), [3, 1, 2].as_slice());
    Ok(())
}

#[test]
fn a_vector_is_given_back_as_it_was(rt: HostRuntime) -> Result<(), Fail> {
    let vector = [7u32, 8].to_vec(rt.alloc())?;
    let items = Items::of(vector);
    assert_eq!(rt; items.len(), 2);
    assert_eq!(rt; items.into_vec().as_slice(), [7, 8].as_slice());
    Ok(())
}
