use super::{Due, Queue};
use std::test::Fail;

#[test]
fn releases_by_due_and_then_by_object(rt: HostRuntime) -> Result<(), Fail> {
    let mut queue = Queue::new(rt.alloc());
    assert_eq!(rt; queue.pop_due(u64::MAX), None);
    queue.reserve(5)?;
    assert_eq!(rt; queue.spare(), 5);
    queue.put(9, 1, 0x4000_0010);
    queue.put(4, 7, 0x4000_0020);
    queue.put(4, 3, 0x4000_0030);
    queue.put(u64::MAX, 0, 0x4000_0040);
    queue.put(4, 5, 0x4000_0000);
    assert_eq!(rt; queue.spare(), 0);
    let cases = [
        (3, None),
        (4, Some((4, 3, 0x4000_0030))),
        (4, Some((4, 5, 0x4000_0000))),
        (8, Some((4, 7, 0x4000_0020))),
        (8, None),
        (9, Some((9, 1, 0x4000_0010))),
        (u64::MAX - 1, None),
        (u64::MAX, Some((u64::MAX, 0, 0x4000_0040))),
        (u64::MAX, None),
    ];
    for (clock, want) in cases {
        let got = queue.pop_due(clock).map(|d: Due| (d.due, d.object, d.addr));
        assert_eq!(rt; got, want, "at {clock}");
    }
    assert_eq!(rt; queue.spare(), 5);
    Ok(())
}

#[test]
fn reserves_only_what_is_missing(rt: HostRuntime) -> Result<(), Fail> {
    let mut queue = Queue::new(rt.alloc());
    for (asked, want) in [(0, 0), (2, 2), (1, 2), (600, 600)] {
        queue.reserve(asked)?;
        assert_eq!(rt; queue.spare(), want, "{asked} asked");
    }
    Ok(())
}
