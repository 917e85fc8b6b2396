// What is mapped.

ghost use Rattle.std.specs.Prelude.{◌≡◌, ◌+◌, ◌≤◌, ◌<◌, ◌^◌, ℕ, true, IfSome};
ghost use Rattle.infinite_heap.specs.InfiniteSystem.{all_in, is_span};
ghost use Rattle.infinite_heap.specs.Mapped.{holds};
ghost use Rattle.blind_judge.specs.Areas.{are_in_order, area_at, grants, mapping_by, segment_of, test_of};

/// `len` addresses from `from` on.
#[derive(Clone, Copy, Debug, PartialEq, Eq, Drop)]
pub struct Area {
    pub from: u32,
    pub len: u32,
    pub writable: bool,
    pub runs: bool,
}

/// What an address is used for.
#[derive(Clone, Copy, Debug, PartialEq, Eq, Drop)]
pub enum Purpose {
    Reading,
    Writing,
    Running,
}

impl Area {
    #[inline(always)]
    fn end(&self) -> u64
        ensures { result ≡ self.now.from + self.now.len }
    {
        u64::from(self.from) + u64::from(self.len)
    }

    #[inline(always)]
    fn holds(&self, x: u64) -> bool
        ensures { result ≡ holds (segment_of self.now) x }
    {
        u64::from(self.from) <= x && x < self.end()
    }

    #[inline(always)]
    fn grants(&self, purpose: Purpose) -> bool
        ensures { result ≡ grants purpose self.now }
    {
        match purpose {
            Purpose::Reading => true,
            Purpose::Writing => self.writable,
            Purpose::Running => self.runs,
        }
    }
}

/// The first area that holds an address.
#[inline(always)]
fn area_at(areas: &[Area], x: u64) -> Option<Area>
    ensures area { result ≡ area_at areas.now x }
    ensures holds { IfSome result (λ area. holds (segment_of area) x ≡ true) }
{
    for area in areas {
        if area.holds(x) {
            return Some(*area);
        }
    }
    None
}

/// Areas by rising address, none of which shares an address with another.
#[derive(Drop)]
pub struct Areas {
    items: Vec<Area>,
    ghost order: { are_in_order 0 items.items ≡ true },
}

impl Areas {
    ghost use Rattle.blind_judge.specs.AreaLists.{mapping_in};

    /// Whether each of `len` addresses from `from` on may be used for a purpose.
    #[inline(always)]
    pub(crate) fn allow(&self, purpose: Purpose, from: u32, len: u32) -> bool
        ensures { result ≡ all_in (test_of purpose (mapping_in self.now)) from len }
    {
        if let Some(area) = area_at(&self.items, u64::from(from)) {
            if u64::from(from) + u64::from(len) <= area.end() && area.grants(purpose) {
                return true;
            }
        }
        self.allow_each(purpose, u64::from(from), u64::from(from) + u64::from(len))
    }

    #[inline(never)]
    fn allow_each(&self, purpose: Purpose, from: u64, end: u64) -> bool
        requires { from ≤ end }
        ensures { (n : ℕ) → from + n ≡ end → result ≡ all_in (test_of purpose (mapping_in self.now)) from n }
    {
        let mut at = from;
        while at < end {
            match area_at(&self.items, at) {
                Some(area) => {
                    if !area.grants(purpose) {
                        return false;
                    }
                    at = area.end().min(end);
                }
                None => return false,
            }
        }
        true
    }

    /// Whether a span ends at 2^32 at most, and each of its addresses may be used for a purpose.
    pub(crate) fn are_span(&self, purpose: Purpose, from: u32, len: u32) -> bool
        ensures { result ≡ is_span (test_of purpose (mapping_in self.now)) from len }
    {
        u64::from(from) + u64::from(len) <= 0x1_0000_0000 && self.allow(purpose, from, len)
    }
}
