// Lists.
use list_core::{List, bring_forward};
use std::alloc::{AllocError, Global};
use std::test::Fail;

// The copy of a list of two numbers that were pushed.
fn pushed(alloc: Global, first: u16, second: u16) -> Result<List<u16>, AllocError> {
    let mut list = List::new(alloc);
    list.push(first)?;
    list.push(second)?;
    list.copy()
}

#[test]
fn a_list_keeps_its_order(rt: HostRuntime) -> Result<(), Fail> {
    let list = pushed(rt.alloc(), 7, 5)?;
    assert!(rt; list.len() == 2 && !list.is_empty());
    let again = List::from_vec(list.into_vec());
    assert_eq!(rt; again.as_slice(), [7, 5].as_slice());
    Ok(())
}

#[test]
fn an_element_comes_to_the_front(rt: HostRuntime) -> Result<(), Fail> {
    let mut items = vec![in rt.alloc(); 5, 6, 7, 8]?;
    bring_forward(&mut items, 2);
    assert_eq!(rt; items.as_slice(), [7, 5, 6, 8].as_slice());
    Ok(())
}
