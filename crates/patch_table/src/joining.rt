// How one map of a table takes in another in place.
ghost use Rattle.std.specs.Prelude.{◌≡◌, ◌≤◌, OnOk, OnErr};
ghost use Rattle.std.specs.List.{AllByRecursion, filter};
ghost use Rattle.std.specs.BTreeMap as tree;
ghost use Rattle.patch_table.specs.Joining.{with_key, lifted, is_entry};

use std::alloc::AllocError;
use std::collections::BTreeMap;

// Adds the keys that the other map has and this one lacks, each with a 0. It alone takes memory, and
// where that is refused, the map is as it was.
pub(crate) fn add_keys<K: Ord + Copy + Drop>(
    map: &mut BTreeMap<K, u32>,
    other: &BTreeMap<K, u32>,
) -> Result<(), AllocError>
    requires ordered { tree.IsOrdered K.cmp map.old }
    requires entries { AllByRecursion (λ e. 1 ≤ e.1) map.old.entries }
    ensures ordered { tree.IsOrdered K.cmp map.new }
    ensures added { OnOk result ((q : K) → tree.get K.cmp map.new q ≡ with_key (tree.get K.cmp map.old q) (tree.get K.cmp other.now q)) }
    ensures besides { OnOk result (filter is_entry map.new.entries ≡ map.old.entries) }
    ensures err { OnErr result (map.new.entries ≡ map.old.entries) }
{
    for (key, _) in other {
        if map.contains_key(key) {
            continue;
        }
        if let Err(refused) = map.insert(*key, 0) {
            drop_keys(map);
            return Err(refused.into());
        }
    }
    Ok(())
}

// Drops the keys that were only added.
pub(crate) fn drop_keys<K: Ord + Drop>(map: &mut BTreeMap<K, u32>)
    ensures ordered { tree.IsOrdered K.cmp map.new }
    ensures kept { map.new.entries ≡ filter is_entry map.old.entries }
{
    map.retain(|_, number| *number != 0);
}

// Raises each value to the other map's, where that is greater. It takes no memory.
pub(crate) fn raise<K: Ord>(map: &mut BTreeMap<K, u32>, other: &BTreeMap<K, u32>)
    requires ordered { tree.IsOrdered K.cmp map.old }
    requires rises { tree.IsOrdered K.cmp other.now }
    ensures ordered { tree.IsOrdered K.cmp map.new }
    ensures raised { (q : K) → tree.get K.cmp map.new q ≡ lifted (tree.get K.cmp map.old q) (tree.get K.cmp other.now q) }
{
    for (key, number) in other {
        if let Some(kept) = map.get_mut(key) {
            *kept = (*kept).max(*number);
        }
    }
}
