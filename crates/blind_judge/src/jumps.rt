// Operations on registers, jumps and branches: docs/infinite-run.md, "Steps".

ghost use Rattle.std.specs.Prelude.{◌≡◌, ◌+◌, ◌%◌, ◌^◌, ◌<◌, [], Some};
ghost use Rattle.infinite_heap.specs.Covered.{Cures};
ghost use Rattle.infinite_heap.specs.InfiniteState.{InfState, after, set_reg};
ghost use Rattle.infinite_heap.specs.InfiniteStep.{decide, inf_branch, inf_jalr, inf_jump, inf_operate};
ghost use Rattle.infinite_heap.specs.Objects.{size_in};
ghost use Rattle.infinite_heap.specs.Operations.{operation_of};
ghost use Rattle.infinite_heap.specs.declared.value.Value.TheVariants.{Num};
ghost use Rattle.site_hash.specs.Hint.{hinted};
ghost use Rattle.blind_judge.specs.Decisions.{decision_of};
ghost use Rattle.blind_judge.specs.Flat.{mapping_in};
ghost use Rattle.blind_judge.specs.Patches.{cures_of};
ghost use Rattle.blind_judge.specs.Stands.{Stands};
ghost use Rattle.blind_judge.specs.Steps.{Takes};

use crate::branching::decide;
use crate::decisions::Decision;
use crate::lifting::lift;
use crate::progress::Progress;
use crate::state::State;
use infinite_heap::{Instr, Op, Value, Why, operation_of};
use patch_table::Patches;
use std::alloc::AllocError;

impl State {
    // Notes the return address of an instruction.
    #[inline(always)]
    fn hint(&mut self, instr: &Instr, link: u32)
        ensures step { (s : InfState) → Stands self.old s → Stands self.new (record s { calls = hinted instr.now link s.calls }) }
        ensures flat { self.new.flat ≡ self.old.flat }
    {
        self.calls.hint(instr, link);
    }

    // Leaves the return address of an instruction in a register.
    #[inline(always)]
    fn link(&mut self, instr: &Instr, rd: u8)
        requires { rd < 32 }
        ensures step { (s : InfState) → Stands self.old s → Stands self.new (record s { regs = set_reg s.regs rd (Num (after s.pc)); calls = hinted instr.now (after s.pc) s.calls }) }
        ensures flat { self.new.flat ≡ self.old.flat }
    {
        let link = self.pc.wrapping_add(4);
        self.hint(instr, link);
        self.set_register(rd, Value::Num(link));
    }

    #[inline(always)]
    fn go_to(&mut self, target: u32)
        ensures step { (s : InfState) → Stands self.old s → Stands self.new (record s { pc = target; steps = s.steps + 1 }) }
        ensures flat { self.new.flat ≡ self.old.flat }
    {
        self.pc = target;
    }

    /// An operation on two values, by its name.
    #[inline(always)]
    pub(crate) fn operate(
        &mut self,
        op: Op,
        rd: u8,
        x: Value,
        y: Value,
    ) -> Result<Progress, AllocError>
        requires { rd < 32 }
        ensures step { (cures : Cures) → Takes cures self.old (λ input s. inf_operate s rd (operation_of op) x y) result self.new }
        ensures mapping { mapping_in self.new.flat ≡ mapping_in self.old.flat }
    {
        match operation_of(op) {
            Some(operation) => {
                let v = lift(&self.objects, operation, x, y);
                self.pass_with(rd, v);
                Ok(Progress::Going)
            }
            None => Ok(Progress::Faulted),
        }
    }

    /// Goes to a target, and leaves the return address in a register.
    #[inline(always)]
    pub(crate) fn jump(
        &mut self,
        instr: &Instr,
        rd: u8,
        target: u32,
    ) -> Result<Progress, AllocError>
        requires { rd < 32 }
        ensures step { (cures : Cures) → Takes cures self.old (λ input s. inf_jump (record s { regs = set_reg s.regs rd (Num (after s.pc)); calls = hinted instr.now (after s.pc) s.calls }) target []) result self.new }
        ensures mapping { mapping_in self.new.flat ≡ mapping_in self.old.flat }
    {
        if target % 4 != 0 {
            return Ok(Progress::Faulted);
        }
        self.link(instr, rd);
        self.go_to(target);
        Ok(Progress::Going)
    }

    /// Goes to the address that a value is, its lowest bit cleared.
    #[inline(always)]
    pub(crate) fn jump_by_value(
        &mut self,
        rd: u8,
        rs1: u8,
        imm: i32,
        at: Value,
    ) -> Result<Progress, AllocError>
        requires { rd < 32 }
        ensures step { (cures : Cures) → Takes cures self.old (λ input s. inf_jalr s rd rs1 at) result self.new }
        ensures mapping { mapping_in self.new.flat ≡ mapping_in self.old.flat }
    {
        match at {
            Value::Num(n) => self.jump(&Instr::Jalr { rd, rs1, imm }, rd, n - n % 2),
            _ => Ok(Progress::Blurred(Why::Target)),
        }
    }

    /// Goes on where an answer says, the answer's records tested first.
    #[inline(always)]
    fn branch_by(
        &mut self,
        patches: &Patches,
        offset: u32,
        decision: Decision,
    ) -> Result<Progress, AllocError>
        ensures step { Takes (cures_of patches.now) self.old (λ input s. inf_branch s offset (Some (decision_of decision))) result self.new }
        ensures mapping { mapping_in self.new.flat ≡ mapping_in self.old.flat }
    {
        if let Some(found) = self.uncovered_look(patches, decision.looks) {
            return Ok(Progress::Uncovered(found));
        }
        if !decision.answer {
            self.pass();
            return Ok(Progress::Going);
        }
        let target = self.pc.wrapping_add(offset);
        if target % 4 != 0 {
            return Ok(Progress::Faulted);
        }
        self.go_to(target);
        Ok(Progress::Going)
    }

    /// A branch by the question that an instruction's name asks of two values.
    #[inline(always)]
    pub(crate) fn branch(
        &mut self,
        patches: &Patches,
        op: Op,
        x: Value,
        y: Value,
        offset: u32,
    ) -> Result<Progress, AllocError>
        ensures step { Takes (cures_of patches.now) self.old (λ input s. inf_branch s offset (decide (size_in s.objects) op x y)) result self.new }
        ensures mapping { mapping_in self.new.flat ≡ mapping_in self.old.flat }
    {
        match decide(&self.objects, op, x, y) {
            Some(decision) => self.branch_by(patches, offset, decision),
            None => Ok(Progress::Blurred(Why::Branch)),
        }
    }
}
