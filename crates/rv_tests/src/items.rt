//! Tests of items that are taken apart into their texts.
use crate::expect::same;
use rv_text::{Item, Items};

#[test]
fn items_are_given_back(rt: HostRuntime) {
    let mut items = Items::new(rt.alloc());
    let text = String::from_str(rt.alloc(), "a").expect(&rt, "no memory");
    items.push(Item::from_text(text)).expect(&rt, "no memory");
    let items = items.into_vec();
    same(&rt, items.len(), 1);
    for item in items {
        same(&rt, item.into_text().as_str(), "a");
    }
}
