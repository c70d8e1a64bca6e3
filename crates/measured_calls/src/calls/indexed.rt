//! Lists by index.

use super::{added, far, further};
use std::alloc::Global;
use type_terms::{FieldIdx, Idx, IndexVec, Refusal};

/// Pushes so many items, in order, and gets so many of them, out of order. Returns a sum of the indices and the items.
pub fn sum(alloc: Global, rows: u32, times: u32) -> Result<u32, Refusal> {
    let mut list = IndexVec::new(alloc);
    let pushed = pushed(&mut list, rows)?;
    Ok(added(pushed, got(&list, rows, times)))
}

// Pushes so many items. Returns a sum of their indices.
fn pushed(list: &mut IndexVec<FieldIdx, u32>, count: u32) -> Result<u32, Refusal> {
    let mut sum = 0;
    for number in 0..count {
        if !list.has_next_index() {
            return Err(Refusal::TableFull);
        }
        sum = added(sum, list.push(number)?.as_u32());
    }
    Ok(sum)
}

// Gets so many of the `count` items. Returns a sum of them.
fn got(list: &IndexVec<FieldIdx, u32>, count: u32, times: u32) -> u32 {
    let (mut sum, mut number) = (0, 0);
    let step = far(count);
    for _ in 0..times {
        if FieldIdx::fits(number) {
            let item = list.get(FieldIdx::from_u32(number)).copied();
            sum = added(sum, item.unwrap_or(0));
        }
        number = further(number, step, count);
    }
    sum
}
