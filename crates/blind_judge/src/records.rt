// What a step records, and whether the patches cover it.

ghost use Rattle.std.specs.Prelude.{◌≡◌, ◌^◌, ◌<◌};
ghost use Rattle.infinite_heap.specs.Covered.{IsCovered};
ghost use Rattle.infinite_heap.specs.Equality.{touches};
ghost use Rattle.infinite_heap.specs.InfiniteState.{InfState, access, clock_of};
ghost use Rattle.blind_judge.specs.Decisions.{looks_of};
ghost use Rattle.blind_judge.specs.Patches.{cures_of};
ghost use Rattle.blind_judge.specs.Stands.{Stands};
ghost use Rattle.blind_judge.specs.Steps.{Screens};
ghost use Rattle.blind_judge.specs.Tells.{Tells};

use crate::covered::is_covered;
use crate::decisions::Looks;
use crate::state::State;
use infinite_heap::{Access, AccessKind, Record};
use patch_table::Patches;

impl State {
    /// An access of this step.
    #[inline(always)]
    pub(crate) fn access(&self, kind: AccessKind, object: u64, offset: u32, width: u32) -> Record
        ensures { (s : InfState) → Stands self.now s → result ≡ access s kind object offset width }
    {
        Record {
            kind,
            access: Access {
                object,
                offset,
                width,
                clock: self.objects.len() as u64,
                pc: self.pc,
            },
        }
    }

    /// Whether the patches cover an access of this step.
    pub(crate) fn is_covered(&self, patches: &Patches, used: &Record) -> bool
        ensures { (s : InfState) → Stands self.now s → Tells result (IsCovered (cures_of patches.now) s.objects used.now) }
    {
        is_covered(patches, &self.objects, used)
    }

    /// The first of the records of an answer that isn't covered.
    pub(crate) fn uncovered_look(&self, patches: &Patches, looks: Looks) -> Option<Record>
        ensures { (s : InfState) → Stands self.now s → Screens (cures_of patches.now) s.objects (touches (clock_of s) s.pc (looks_of looks)) result }
    {
        match looks {
            Looks::Nothing => None,
            Looks::Both {
                object,
                offset,
                other,
                other_offset,
            } => {
                let first = self.access(AccessKind::Touch, object, offset, 1);
                if !self.is_covered(patches, &first) {
                    return Some(first);
                }
                let second = self.access(AccessKind::Touch, other, other_offset, 1);
                if !self.is_covered(patches, &second) {
                    return Some(second);
                }
                None
            }
        }
    }
}
