//! Numbers in lists: on a line, where no program prints one, and in an array.
use h5_listing::{Form, Item, print_items};
use std::alloc::{AllocError, Global};
use std::test::Fail;

fn new_items(alloc: Global) -> Result<Vec<Item>, AllocError> {
    let mut item = Item::new(alloc);
    item.add("name", "eof-in-tag")?;
    item.add_number("line", 12)?;
    let mut items = Vec::new(alloc);
    items.push(item)?;
    Ok(items)
}

fn printed(alloc: Global, items: &[Item], form: Form) -> Result<String, AllocError> {
    let mut text = String::new(alloc);
    print_items(items, &mut text, form, None)?;
    Ok(text)
}

#[test]
fn numbers_are_printed_as_numbers(rt: HostRuntime) -> Result<(), Fail> {
    let items = new_items(rt.alloc())?;
    let lines = printed(rt.alloc(), items.as_slice(), Form::Lines);
    let array = printed(rt.alloc(), items.as_slice(), Form::Array);
    drop(items);
    let (lines, array) = (lines?, array?);
    assert_eq!(rt; lines.as_str(), "eof-in-tag\t12\n");
    assert_eq!(rt; array.as_str(), "[{\"name\":\"eof-in-tag\",\"line\":12}]");
    Ok(())
}
