// The 65,536 bytes before an address of an image, and which of them are broken.
ghost use Rattle.std.specs.Prelude.{◌≡◌, ◌<◌, ◌≤◌, ◌+◌, ◌-◌, All, length};
ghost use Rattle.std.specs.Bool.{OnTrue, OnFalse};
ghost use Rattle.overflow_isolator.specs.Overflows.{reach};
ghost use Rattle.overflow_isolator.specs.Windows.{AreApart, AreBreaksOf, AreBrokenBack, IsBrokenBack};

use heap_image::{Broken, Image};

/// The bytes of an image that lie at most 65,536 before an address, which ends them.
#[derive(Clone, Copy)]
pub struct Window<'a> {
    pub image: &'a Image,
    pub end: u64,
}

impl<'a> Window<'a> {
    /// Its broken bytes.
    pub fn breaks(&self) -> &'a [Broken]
        ensures { AreBreaksOf self.now result.now }
    {
        let image = self.image;
        image.breaks_within(self.end.saturating_sub(65536), self.end)
    }

    /// Whether the byte so far before its end is broken.
    fn is_broken_back(&self, distance: u32) -> bool
        ensures broken { OnTrue result (IsBrokenBack distance self.now) }
        ensures whole { OnFalse result (¬ IsBrokenBack distance self.now) }
    {
        let distance = u64::from(distance);
        if self.end < distance {
            return false;
        }
        let image = self.image;
        image.is_broken(self.end - distance)
    }
}

/// Whether no byte is broken as far before the end of one window as before the other's. Their broken
/// bytes are walked through side by side, the farthest first.
pub fn are_apart(one: &Window<'_>, other: &Window<'_>) -> bool
    ensures { OnTrue result (AreApart one.now other.now) }
{
    let ones = one.breaks();
    let others = other.breaks();
    let mut i = 0;
    let mut j = 0;
    'walk: while i < ones.len() && j < others.len() {
        let far = distance_to(one.end, &ones[i]);
        let near = distance_to(other.end, &others[j]);
        if far == near {
            return false;
        }
        if far < near {
            j += 1;
            continue 'walk;
        }
        i += 1;
    }
    true
}

/// How far before an address a byte lies.
pub fn distance_to(end: u64, byte: &Broken) -> u32
    requires before { byte.now.addr < end }
    requires near { end ≤ byte.now.addr + reach }
    ensures { result ≡ end - byte.now.addr }
{
    (end - u64::from(byte.addr)) as u32
}

/// Whether the byte so far before the end of each window is broken.
pub fn are_broken_back(windows: &[Window<'_>], distance: u32) -> bool
    ensures broken { OnTrue result (AreBrokenBack windows.now distance) }
    ensures whole { OnFalse result (¬ AreBrokenBack windows.now distance) }
{
    for window in windows {
        if !window.is_broken_back(distance) {
            return false;
        }
    }
    true
}

/// The window with the fewest broken bytes.
pub fn fewest(windows: &[Window<'_>]) -> usize
    requires { 0 < length windows.now }
    ensures { result < length windows.now }
{
    let mut at = 0;
    let mut least = usize::MAX;
    for (k, window) in windows.iter().enumerate() {
        let count = window.breaks().len();
        if count < least {
            at = k;
            least = count;
        }
    }
    at
}
