// What a heap goes by.
ghost use Rattle.std.specs.Prelude.{◌≡◌, ◌≤◌, ◌^◌};

use crate::parts::{Request, slot_bytes};
use patch_table::Patches;
use size_class::class_of;

/// The patches, and whether each new object is set to zero.
#[derive(Drop)]
pub(crate) struct Rules {
    pub(crate) patches: Patches,
    pub(crate) zero: bool,
}

impl Rules {
    ghost use Rattle.exact_heap.specs.Placing.{front_in, request};
    ghost use Rattle.exact_heap.specs.Lawful.{HasRoom, IsAlignment, Fits};
    ghost use Rattle.exact_heap.specs.Stands.{rules_from};

    // The request of an object of that alignment and size from that site: its class has room for the site's
    // front and pad too.
    pub(crate) fn request(&self, align: u32, size: u32, site: u32) -> Request
        requires size { size ≤ 2 ^ 20 }
        requires align { IsAlignment align }
        ensures value { result ≡ request (rules_from self.now) align size site }
        ensures fits { Fits result }
        ensures room { HasRoom result.class result.front align size }
    {
        let Some(reach) = class_of(size + self.patches.pad_of(site)) else {
            unreachable!()
        };
        let front = self.front(site).next_multiple_of(align);
        match class_of((front + slot_bytes(reach)).max(align)) {
            Some(class) => Request {
                class,
                front,
                alignment: align,
                size,
                site,
            },
            None => unreachable!(),
        }
    }

    // The front of a site.
    fn front(&self, site: u32) -> u32
        ensures value { result ≡ front_in (rules_from self.now) site }
        ensures limit { result ≤ 2 ^ 16 }
    {
        self.patches.front_of(site)
    }
}
