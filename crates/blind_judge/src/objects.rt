// The objects of the infinite heap: docs/infinite-run.md, "Objects".

ghost use Rattle.std.specs.Prelude.{◌≡◌};
ghost use Rattle.infinite_heap.specs.Objects.{alignment_in, object_at, size_in};
ghost use Rattle.blind_judge.specs.Objects.{object_of, objects_of};

/// When and where an object was freed: the clock, and the site of the call.
#[derive(Clone, Copy, Debug, PartialEq, Eq, Drop)]
pub struct Freed {
    pub clock: u64,
    pub site: u32,
}

/// An object: its size and alignment in bytes, the site of its allocation, whether it began with zeros or
/// with unset bytes, and its free.
#[derive(Clone, Copy, Debug, PartialEq, Eq, Drop)]
pub struct Object {
    pub size: u32,
    pub alignment: u32,
    pub site: u32,
    pub zeroed: bool,
    pub freed: Option<Freed>,
}

/// Addresses of objects are multiples of 16 at least.
pub const LEAST_ALIGNMENT: u32 = 16;

/// The alignment of an object by its number, the least one where there is no such object.
#[inline(always)]
pub fn alignment_in(objects: &[Object], number: u64) -> u32
    ensures { result ≡ alignment_in (objects_of objects.now) number }
{
    match objects.get(number as usize) {
        Some(object) => object.alignment,
        None => LEAST_ALIGNMENT,
    }
}

/// The size of an object by its number, 0 where there is no such object.
#[inline(always)]
pub fn size_in(objects: &[Object], number: u64) -> u32
    ensures { result ≡ size_in (objects_of objects.now) number }
{
    match objects.get(number as usize) {
        Some(object) => object.size,
        None => 0,
    }
}

/// An object by its number, an empty one where there is no such object.
#[inline(always)]
pub fn object_in(objects: &[Object], number: u64) -> Object
    ensures { object_of result ≡ object_at (objects_of objects.now) number }
{
    match objects.get(number as usize) {
        Some(object) => *object,
        None => NO_OBJECT,
    }
}

const NO_OBJECT: Object = Object {
    size: 0,
    alignment: LEAST_ALIGNMENT,
    site: 0,
    zeroed: false,
    freed: None,
};
