// Where an address was found last.
ghost use Rattle.std.specs.Prelude.{◌<◌};

use std::alloc::{AllocError, Global};
use std::array;
use std::cell::Cell;

// How many cells there are for parts of 32 addresses.
const FINE: usize = 65_536;

/// For each part of 65,536 addresses the place that was found there last. Parts share cells, and a
/// place may be out of date: whoever uses one tests it.
#[derive(Drop)]
pub(crate) struct Hints {
    places: [Cell<u32>; 256],
    // The same for each part of 32 addresses that code was run in, where there are many ranges.
    fine: Vec<Cell<u32>>,
}

impl Hints {
    pub(crate) fn new(alloc: Global) -> Hints {
        Hints {
            places: array::from_fn(|_| Cell::new(0)),
            fine: Vec::new(alloc),
        }
    }

    /// Makes the cells for parts of 32 addresses, where they aren't made yet.
    pub(crate) fn refine(&mut self) -> Result<(), AllocError> {
        for _made in self.fine.len()..FINE {
            self.fine.push(Cell::new(0))?;
        }
        Ok(())
    }

    // Parts that follow each other have cells that do. The program, the heap and the stack begin far apart, and
    // their cells do too: the highest byte moves a part by five times itself.
    #[inline(always)]
    fn cell(addr: u32) -> usize
        ensures { result < 256 }
    {
        ((addr & 0xFFFF_0000).wrapping_mul(0x105) / 0x100_0000) as usize
    }

    #[inline(always)]
    pub(crate) fn get(&self, addr: u32) -> usize {
        self.places[Hints::cell(addr)].get() as usize
    }

    fn fine_cell(addr: u32) -> usize {
        (addr / 32) as usize % FINE
    }

    /// The place for a fetch.
    pub(crate) fn get_code(&self, addr: u32) -> usize {
        match self.fine.get(Hints::fine_cell(addr)) {
            Some(place) => place.get() as usize,
            None => self.get(addr),
        }
    }

    pub(crate) fn set_code(&self, addr: u32, place: usize) {
        match (self.fine.get(Hints::fine_cell(addr)), u32::try_from(place)) {
            (Some(cell), Ok(place)) => cell.set(place),
            _ => self.set(addr, place),
        }
    }

    pub(crate) fn set(&self, addr: u32, place: usize) {
        if let Ok(place) = u32::try_from(place) {
            self.places[Hints::cell(addr)].set(place);
        }
    }
}
