// Images of random guests, with errors in most: written, read, and written again they are the same bytes.
mod guest;

use ex_io::{SureSink, SureSource, Tape};
use guest::{Draws, program_of};
use heap_image::Image;
use layout_run::run_one;
use patch_table::{Patches, one_text_a_table};
use rv_machine::Settings;
use std::alloc::{AllocError, Global};
use std::test::Fail;

// A table with an entry of each kind, or an empty one.
fn table_of(alloc: Global, draws: &mut Draws) -> Result<Patches, AllocError> {
    let mut table = Patches::new(alloc);
    if draws.below(4) == 0 {
        return Ok(table);
    }
    for _ in 0..draws.below(4) {
        table.raise_pad(draws.next(), 1 + draws.below(0x10_0000))?;
        table.raise_front(draws.next(), 16 * (1 + draws.below(4096)))?;
        table.raise_defer(draws.next(), draws.next(), 1 + draws.below(1000))?;
    }
    Ok(table)
}

// Runs a guest, and takes its image: of its first signal or its end, or behind a heap call.
fn image_of(alloc: Global, seed: u32) -> Result<Option<Image>, AllocError> {
    let mut draws = Draws::new(seed);
    let program = program_of(alloc, &mut draws)?;
    let settings = Settings {
        seed: u64::from(seed),
        zero: draws.below(2) == 0,
        patches: table_of(alloc, &mut draws)?,
    };
    let stop_at = match draws.below(3) {
        0 => Some(u64::from(draws.below(40))),
        _ => None,
    };
    let mut input = SureSource::new(Vec::new(alloc));
    let Ok(mut tape) = Tape::new(alloc, &mut input, false) else {
        return Err(AllocError);
    };
    match run_one(
        alloc,
        program,
        &[],
        settings,
        10_000,
        &mut tape,
        &mut input,
        &mut SureSink::new(alloc),
        &mut SureSink::new(alloc),
        stop_at,
        true,
    ) {
        Ok(ran) => Ok(ran.image),
        Err(_) => Err(AllocError),
    }
}

fn bytes_of(alloc: Global, image: &Image) -> Result<Vec<u8>, AllocError> {
    one_text_a_table();
    let text = image.patches.write(alloc)?;
    if text.len() > 0xffff_ffff {
        return Err(AllocError);
    }
    image.write(alloc)
}

// What the images of all guests have together.
#[derive(Clone, Copy, Debug)]
struct Seen {
    rows: u64,
    broken: u64,
    patched: u64,
}

// Whether an image is the same bytes when it is written, read, and written again.
fn is_read_back(alloc: Global, image: &Image, seen: &mut Seen) -> Result<bool, AllocError> {
    let bytes = bytes_of(alloc, image)?;
    let Ok(read) = Image::read(alloc, bytes.as_slice()) else {
        return Ok(false);
    };
    seen.rows = seen.rows.saturating_add(image.rows.len() as u64);
    seen.broken = seen.broken.saturating_add(image.broken.len() as u64);
    if image.patches.counts() != (0, 0, 0) {
        seen.patched = seen.patched.saturating_add(1);
    }
    let again = bytes_of(alloc, &read)?;
    let text = image.text(alloc)?;
    let text_again = read.text(alloc)?;
    Ok(again.as_slice() == bytes.as_slice() && text_again.as_slice() == text.as_slice())
}

const GUESTS: u32 = 200;

#[test]
fn images_are_read_as_they_were_written(rt: HostRuntime) -> Result<(), Fail> {
    let alloc = rt.alloc();
    let mut seen = Seen {
        rows: 0,
        broken: 0,
        patched: 0,
    };
    for seed in 0..GUESTS {
        let image = image_of(alloc, seed)?;
        assert!(&rt; image.is_some(), "guest {seed}");
        if let Some(image) = image {
            assert!(&rt; is_read_back(alloc, &image, &mut seen)?, "guest {seed}");
        }
    }
    // the guests use their heaps, and break them
    assert!(&rt;
        seen.rows > 1000 && seen.broken > 200 && seen.patched > 50,
        "{seen:?}"
    );
    Ok(())
}
