// Which accesses a patch table covers: docs/infinite-run.md, "Covered". Entry point: `is_covered`.

ghost use Rattle.std.specs.Prelude.{◌≡◌, ◌^◌, ◌+◌, ◌<◌, max, nat_le};
ghost use Rattle.infinite_heap.specs.Covered.{InTime, IsCovered, IsWithin, power_from, reach};
ghost use Rattle.std.specs.declared.option.Option.TheVariants.{Some};
ghost use Rattle.blind_judge.specs.Objects.{freed_of, object_of, objects_of};
ghost use Rattle.blind_judge.specs.Patches.{cures_of};
ghost use Rattle.blind_judge.specs.Tells.{Tells};

use crate::objects::{Freed, Object, object_in};
use infinite_heap::{AccessKind, Record};
use patch_table::Patches;

/// One past the last word: offsets before an object's address are counted from here down.
const WORDS: u64 = 0x1_0000_0000;

/// Offsets from here on lie before the object's address.
const FIRST_BEFORE: u32 = 0x8000_0000;

/// Whether the access stays in the bounds of its object that the patches give, while the object is kept.
pub fn is_covered(patches: &Patches, objects: &[Object], used: &Record) -> bool
    ensures { Tells result (IsCovered (cures_of patches.now) (objects_of objects.now) used.now) }
{
    let object = object_in(objects, used.access.object);
    is_within(patches, object, used.access.offset, used.access.width)
        && is_in_time(patches, object, used.kind, used.access.clock)
}

fn is_within(patches: &Patches, object: Object, offset: u32, width: u32) -> bool
    ensures { Tells result (IsWithin (cures_of patches.now) (object_of object) (nat_le (2 ^ 31) offset) offset width) }
{
    let (offset_whole, width) = (u64::from(offset), u64::from(width));
    let reach = reach(patches, object);
    if offset < FIRST_BEFORE {
        return offset_whole + width <= reach;
    }
    let front = u64::from(patches.front_of(object.site));
    WORDS <= offset_whole + front && offset_whole + width <= WORDS + reach
}

fn is_in_time(patches: &Patches, object: Object, kind: AccessKind, clock: u64) -> bool
    ensures { Tells result (InTime (cures_of patches.now) (object_of object) (object_of object).freed kind clock) }
{
    match object.freed {
        None => kind != AccessKind::Again,
        Some(freed) => is_before_reuse(patches, object, freed, kind, clock),
    }
}

fn is_before_reuse(
    patches: &Patches,
    object: Object,
    freed: Freed,
    kind: AccessKind,
    clock: u64,
) -> bool
    ensures { Tells result (InTime (cures_of patches.now) (object_of object) (Some (freed_of freed)) kind clock) }
{
    let deferral = u64::from(patches.defer_of(object.site, freed.site));
    if clock < freed.clock {
        return true;
    }
    match kind {
        AccessKind::Again => clock - freed.clock <= deferral,
        _ => clock - freed.clock < deferral,
    }
}

// How far from its address an object may be used.
fn reach(patches: &Patches, object: Object) -> u64
    ensures same { result ≡ reach (cures_of patches.now) (object_of object) }
    ensures fits { result < 2 ^ 34 }
{
    power_of_two_from(u64::from(object.size) + u64::from(patches.pad_of(object.site)))
}

// The least power of two that is at least 16 and at least the size.
fn power_of_two_from(size: u64) -> u64
    requires { size < 2 ^ 33 }
    ensures same { result ≡ power_from 16 (max 1 size) size }
    ensures fits { result < 2 ^ 34 }
{
    let need = size.max(1);
    let mut power: u64 = 16;
    let mut doublings = size;
    while power < need {
        power *= 2;
        doublings -= 1;
    }
    power
}
