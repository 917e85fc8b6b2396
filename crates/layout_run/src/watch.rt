// The image that a run is asked for.
ghost use Rattle.std.specs.Prelude.{◌≡◌, IfOk, OnOk};
ghost use Rattle.rv_machine.specs.Guest.{Guest};
ghost use Rattle.rv_machine.specs.Stands.{IsAt, tag_in};
ghost use Rattle.heap_image.specs.Taken.{image_of_guest};
ghost use Rattle.layout_run.specs.Watched.{by_signal, last_image, place_at_end, taken_after};

use crate::ran::Ending;
use exact_heap::Place;
use heap_image::Image;
use rv_machine::Machine;
use std::alloc::{AllocError, Global};

// Whether the image is to be of the state of the first signal, where there is one.
pub(crate) fn is_by_signal(imaged: bool, stop_at: Option<u64>) -> bool
    ensures { result ≡ by_signal imaged stop_at }
{
    match stop_at {
        None => imaged,
        Some(_) => false,
    }
}

// The image of a machine as it stands.
fn image_at(alloc: Global, machine: &Machine, place: Place) -> Result<Image, AllocError>
    ensures { (g : Guest) → IsAt g machine.now → IfOk result (λ image. image ≡ image_of_guest (tag_in machine.now) place g) }
{
    match place {
        // no run makes so many heap calls
        Place::Call(u64::MAX) => Err(AllocError),
        place => Image::take(alloc, machine, place),
    }
}

// Takes the image of the state just after the heap call of the first signal, when that has come.
pub(crate) fn watch(
    alloc: Global,
    machine: &Machine,
    watches: bool,
    taken: &mut Option<Image>,
) -> Result<(), AllocError>
    ensures { (g : Guest) → IsAt g machine.now → OnOk result (taken.new ≡ taken_after watches taken.old (tag_in machine.now) g) }
{
    if !watches || taken.is_some() {
        return Ok(());
    }
    if let Some(signal) = machine.heap().signals().first() {
        *taken = Some(image_at(alloc, machine, signal.place)?);
    }
    Ok(())
}

// Where a run is that has ended so.
pub(crate) fn place_of(ending: Ending, stop_at: Option<u64>) -> Place
    ensures { result ≡ place_at_end stop_at ending }
{
    match (stop_at, ending) {
        (Some(call), Ending::Stopped) => Place::Call(call),
        _ => Place::End,
    }
}

// The image of a run, where one was asked for: what was taken of it, or else that of its last state, which this is.
pub(crate) fn image_of_end(
    alloc: Global,
    machine: &Machine,
    imaged: bool,
    taken: Option<Image>,
    place: Place,
) -> Result<Option<Image>, AllocError>
    ensures { (g : Guest) → IsAt g machine.now → IfOk result (λ image. image ≡ last_image imaged taken (tag_in machine.now) place g) }
{
    if !imaged {
        return Ok(None);
    }
    match taken {
        Some(image) => Ok(Some(image)),
        None => Ok(Some(image_at(alloc, machine, place)?)),
    }
}
