// Registers and the program counter.

ghost use Rattle.std.specs.Prelude.{◌≡◌, ◌<◌};
ghost use Rattle.infinite_heap.specs.InfiniteState.{InfState, inf_next, inf_pass, set_reg};
ghost use Rattle.blind_judge.specs.Stands.{Stands, registers_of};

use crate::state::State;
use infinite_heap::Value;

impl State {
    /// The value of a register.
    #[inline(always)]
    pub(crate) fn register(&self, r: u8) -> Value
        requires { r < 32 }
        ensures register { result ≡ registers_of self.now.regs r }
        ensures same { (s : InfState) → Stands self.now s → result ≡ s.regs r }
    {
        self.regs[r as usize]
    }

    // Writes a register; x0 stays.
    #[inline(always)]
    pub(crate) fn set_register(&mut self, rd: u8, v: Value)
        requires { rd < 32 }
        ensures step { (s : InfState) → Stands self.old s → Stands self.new (record s { regs = set_reg s.regs rd v }) }
        ensures flat { self.new.flat ≡ self.old.flat }
    {
        if rd != 0 {
            self.regs[rd as usize] = v;
        }
    }

    /// Goes to the next instruction.
    #[inline(always)]
    pub(crate) fn pass(&mut self)
        ensures step { (s : InfState) → Stands self.old s → Stands self.new (inf_pass s) }
        ensures flat { self.new.flat ≡ self.old.flat }
    {
        self.pc = self.pc.wrapping_add(4);
    }

    /// Writes a register and goes to the next instruction.
    #[inline(always)]
    pub(crate) fn pass_with(&mut self, rd: u8, v: Value)
        requires { rd < 32 }
        ensures step { (s : InfState) → Stands self.old s → Stands self.new (inf_next s rd v) }
        ensures flat { self.new.flat ≡ self.old.flat }
    {
        self.set_register(rd, v);
        self.pass();
    }
}
