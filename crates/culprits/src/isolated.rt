// The patches that objects call for which a program misuses.
ghost use Rattle.std.specs.Prelude.{◌≡◌, ◌≤◌, IfOk, OnOk};
ghost use Rattle.std.specs.List.{AllByRecursion};
ghost use Rattle.culprits.specs.Isolated.{IsBefore, IsJoined, IsPast, deferral_for, deferred, found_table, front_for, fronted, padded};

use crate::found::{Dangling, Overflow, Underflow};
use patch_table::Patches;
use std::alloc::{AllocError, Global};

/// What images call for.
#[derive(Drop)]
pub struct Isolated {
    /// The old table joined with what was found.
    pub patches: Patches,
    /// The sites with a pad and those with a front that were found, also where the old table has them.
    pub pads: u64,
    /// The pairs of sites that were found.
    pub defers: u64,
}

/// The old table joined with the patches that these objects call for.
pub fn patches_for(
    alloc: Global,
    past: &[Overflow],
    before: &[Underflow],
    late: &[Dangling],
    old: &Patches,
) -> Result<Isolated, AllocError>
    requires past { AllByRecursion IsPast past.now }
    requires before { AllByRecursion IsBefore before.now }
    ensures { IfOk result (IsJoined past.now before.now late.now old.now) }
{
    let found = table_of(alloc, past, before, late)?;
    found.keep_limits();
    let (pads, fronts, defers) = found.counts();
    let mut patches = old.copy()?;
    patches.join(&found)?;
    Ok(Isolated {
        patches,
        pads: pads + fronts,
        defers,
    })
}

// The table of what was found.
fn table_of(
    alloc: Global,
    past: &[Overflow],
    before: &[Underflow],
    late: &[Dangling],
) -> Result<Patches, AllocError>
    requires past { AllByRecursion IsPast past.now }
    requires before { AllByRecursion IsBefore before.now }
    ensures { IfOk result (λ table. table ≡ found_table past.now before.now late.now) }
{
    let mut table = Patches::new(alloc);
    put_pads(&mut table, past)?;
    put_fronts(&mut table, before)?;
    put_defers(&mut table, late)?;
    Ok(table)
}

fn put_pads(table: &mut Patches, past: &[Overflow]) -> Result<(), AllocError>
    requires { AllByRecursion IsPast past.now }
    ensures { OnOk result (table.new ≡ padded table.old past.now) }
{
    for found in past {
        table.raise_pad(found.site, found.extent - found.size)?;
    }
    Ok(())
}

fn front_for(extent: u32) -> u32
    requires { extent ≤ 65536 }
    ensures { result ≡ front_for extent }
{
    (extent + 15) / 16 * 16
}

fn put_fronts(table: &mut Patches, before: &[Underflow]) -> Result<(), AllocError>
    requires { AllByRecursion IsBefore before.now }
    ensures { OnOk result (table.new ≡ fronted table.old before.now) }
{
    for found in before {
        table.raise_front(found.site, front_for(found.extent))?;
    }
    Ok(())
}

fn put_defers(table: &mut Patches, late: &[Dangling]) -> Result<(), AllocError>
    ensures { OnOk result (table.new ≡ deferred table.old late.now) }
{
    for found in late {
        table.raise_defer(found.site, found.free_site, found.deferral())?;
    }
    Ok(())
}
