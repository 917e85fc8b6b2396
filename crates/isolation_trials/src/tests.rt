// A thousand lists of images, each asked of the isolators and searched plainly.
mod made;
mod plain;

use dangling_isolator::danglings;
use heap_image::Image;
use made::images_of;
use overflow_isolator::{overflows, underflows};
use plain::{dangling_objects, overflowing_objects, underflowing_objects};
use std::alloc::{AllocError, Global};
use std::test::Fail;

// How many objects were found in a list, where all three answers are those of the plain searches.
#[derive(Clone, Copy)]
struct Counts {
    overflows: usize,
    underflows: usize,
    danglings: usize,
}

fn counts_of(alloc: Global, images: &[Image]) -> Result<Option<Counts>, AllocError> {
    let Ok(past) = overflows(alloc, images) else {
        return Ok(None);
    };
    let Ok(before) = underflows(alloc, images) else {
        return Ok(None);
    };
    let Ok(late) = danglings(alloc, images) else {
        return Ok(None);
    };
    let is_same = past.as_slice() == overflowing_objects(alloc, images)?.as_slice()
        && before.as_slice() == underflowing_objects(alloc, images)?.as_slice()
        && late.as_slice() == dangling_objects(alloc, images)?.as_slice();
    if !is_same {
        return Ok(None);
    }
    Ok(Some(Counts {
        overflows: past.len(),
        underflows: before.len(),
        danglings: late.len(),
    }))
}

#[test]
fn finds_what_plain_searches_find(rt: HostRuntime) -> Result<(), Fail> {
    let mut lists = 0u32;
    let mut found = [0usize; 3];
    for list in 0..1_200u32 {
        if let Some(images) = images_of(rt.alloc(), list)? {
            match counts_of(rt.alloc(), &images)? {
                None => assert!(&rt; false, "list {list}"),
                Some(counts) => {
                    lists = lists.wrapping_add(1);
                    found[0] = found[0].wrapping_add(counts.overflows);
                    found[1] = found[1].wrapping_add(counts.underflows);
                    found[2] = found[2].wrapping_add(counts.danglings);
                }
            }
        }
    }
    assert!(&rt; lists >= 1_000, "lists {lists}");
    assert!(&rt;
        found[0] >= 1_000 && found[1] >= 800 && found[2] >= 150,
        "found {found:?}"
    );
    Ok(())
}
