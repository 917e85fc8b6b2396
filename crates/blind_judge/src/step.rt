// One step: docs/infinite-run.md, "Steps". Entry point: `step`.

ghost use Rattle.std.specs.Prelude.{◌≡◌};
ghost use Rattle.infinite_heap.specs.InfiniteStep.{inf_fetch, inf_word};
ghost use Rattle.infinite_heap.specs.declared.value.Value.TheVariants.{Num};
ghost use Rattle.blind_judge.specs.Flat.{mapping_in};
ghost use Rattle.blind_judge.specs.Patches.{cures_of};
ghost use Rattle.blind_judge.specs.Steps.{Takes};

use crate::areas::Purpose;
use crate::progress::Progress;
use crate::state::State;
use infinite_heap::{Value, Why};
use patch_table::Patches;
use rv_decode::decode;
use std::alloc::AllocError;

impl State {
    // Carries out the instruction that a word is.
    #[inline(always)]
    fn run_word(&mut self, patches: &Patches, word: u32) -> Result<Progress, AllocError>
        ensures step { Takes (cures_of patches.now) self.old (λ input s. inf_word (mapping_in self.old.flat) input s (Num word)) result self.new }
        ensures mapping { mapping_in self.new.flat ≡ mapping_in self.old.flat }
    {
        match decode(word) {
            Some(instr) => self.execute(patches, instr),
            None => Ok(Progress::Faulted),
        }
    }

    // Carries out the instruction at pc.
    #[inline(always)]
    fn fetch(&mut self, patches: &Patches) -> Result<Progress, AllocError>
        ensures step { Takes (cures_of patches.now) self.old (λ input s. inf_fetch (mapping_in self.old.flat) input s) result self.new }
        ensures mapping { mapping_in self.new.flat ≡ mapping_in self.old.flat }
    {
        let runs = self.flat.areas.allow(Purpose::Running, self.pc, 4);
        if !runs {
            return Ok(Progress::Faulted);
        }
        let word = self.flat.word(self.pc);
        match word {
            Value::Num(word) => self.run_word(patches, word),
            _ => Ok(Progress::Blurred(Why::Fetch)),
        }
    }
}
