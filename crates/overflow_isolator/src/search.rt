// How near and how far before the ends of windows a byte is broken in all of them. The broken bytes of
// one window are walked through, and each is looked up in the others.
ghost use Rattle.std.specs.Prelude.{◌≡◌, ◌<◌, ◌+◌, Contains, length};
ghost use Rattle.overflow_isolator.specs.Overflows.{IsGreatestBelow, reach};
ghost use Rattle.overflow_isolator.specs.Windows.{AreBrokenBack, IsLeastBelow};

use crate::window::{Window, are_broken_back, distance_to, fewest};

/// The least distance before the windows' ends at which a byte is broken in all of them.
pub fn nearest(windows: &[Window<'_>]) -> Option<u32>
    requires { 0 < length windows.now }
    ensures { IsLeastBelow (AreBrokenBack windows.now) 1 (reach + 1) result }
{
    let window = &windows[fewest(windows)];
    nearest_in(windows, window)
}

// The same; the window is one of the windows.
fn nearest_in(windows: &[Window<'_>], window: &Window<'_>) -> Option<u32>
    requires { Contains windows.now window.now }
    ensures { IsLeastBelow (AreBrokenBack windows.now) 1 (reach + 1) result }
{
    let breaks = window.breaks();
    for k in 0..breaks.len() {
        let distance = distance_to(window.end, &breaks[breaks.len() - 1 - k]);
        if are_broken_back(windows, distance) {
            return Some(distance);
        }
    }
    None
}

/// The greatest distance before the windows' ends at which a byte is broken in all of them.
pub fn farthest(windows: &[Window<'_>]) -> Option<u32>
    requires { 0 < length windows.now }
    ensures { IsGreatestBelow (AreBrokenBack windows.now) 1 (reach + 1) result }
{
    let window = &windows[fewest(windows)];
    farthest_in(windows, window)
}

// The same; the window is one of the windows.
fn farthest_in(windows: &[Window<'_>], window: &Window<'_>) -> Option<u32>
    requires { Contains windows.now window.now }
    ensures { IsGreatestBelow (AreBrokenBack windows.now) 1 (reach + 1) result }
{
    let breaks = window.breaks();
    for byte in breaks {
        let distance = distance_to(window.end, byte);
        if are_broken_back(windows, distance) {
            return Some(distance);
        }
    }
    None
}
