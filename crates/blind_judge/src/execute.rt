// One instruction: docs/infinite-run.md, "Steps". Entry point: `execute`.

ghost use Rattle.std.specs.Prelude.{◌≡◌, ◌<◌, ◌+◌, ◌%◌, ◌^◌, [], IsTrue};
ghost use Rattle.infinite_heap.specs.Calls.{after_jal};
ghost use Rattle.infinite_heap.specs.Covered.{Cures};
ghost use Rattle.infinite_heap.specs.InRange.{IsInRange, is_load_op, is_store_op};
ghost use Rattle.infinite_heap.specs.InfiniteState.{Goes, InfState, after, inf_next, set_reg};
ghost use Rattle.infinite_heap.specs.InfiniteStep.{decide, inf_branch, inf_do, inf_jalr, inf_jump, inf_load, inf_operate, inf_store, inf_system};
ghost use Rattle.infinite_heap.specs.Lift.{lift};
ghost use Rattle.infinite_heap.specs.Objects.{alignment_in, size_in};
ghost use Rattle.infinite_heap.specs.Operations.{operation_of};
ghost use Rattle.infinite_heap.specs.declared.instr.Operation.TheVariants.{Add};
ghost use Rattle.infinite_heap.specs.declared.value.Value.TheVariants.{Num};
ghost use Rattle.blind_judge.specs.Flat.{mapping_in};
ghost use Rattle.blind_judge.specs.Patches.{cures_of};
ghost use Rattle.blind_judge.specs.Stands.{Stands};
ghost use Rattle.blind_judge.specs.Steps.{Takes};

use crate::lifting::lift;
use crate::progress::Progress;
use crate::state::State;
use infinite_heap::{Instr, Op, Operation, Value};
use patch_table::Patches;
use std::alloc::AllocError;

impl State {
    // The address of a load, a store or a jump.
    #[inline(always)]
    fn address(&self, rs1: u8, word: u32) -> Value
        requires { rs1 < 32 }
        ensures { (s : InfState) → Stands self.now s → result ≡ lift (alignment_in s.objects) Add (s.regs rs1) (Num word) }
    {
        let x = self.register(rs1);
        lift(&self.objects, Operation::Add, x, Value::Num(word))
    }

    #[inline(always)]
    fn do_alu(&mut self, op: Op, rd: u8, rs1: u8, rs2: u8) -> Result<Progress, AllocError>
        requires { (rd < 32) × (rs1 < 32) × (rs2 < 32) }
        ensures step { (cures : Cures) → Takes cures self.old (λ input s. inf_operate s rd (operation_of op) (s.regs rs1) (s.regs rs2)) result self.new }
        ensures mapping { mapping_in self.new.flat ≡ mapping_in self.old.flat }
    {
        let x = self.register(rs1);
        let y = self.register(rs2);
        self.operate(op, rd, x, y)
    }

    #[inline(always)]
    fn do_immediate(&mut self, op: Op, rd: u8, rs1: u8, word: u32) -> Result<Progress, AllocError>
        requires { (rd < 32) × (rs1 < 32) }
        ensures step { (cures : Cures) → Takes cures self.old (λ input s. inf_operate s rd (operation_of op) (s.regs rs1) (Num word)) result self.new }
        ensures mapping { mapping_in self.new.flat ≡ mapping_in self.old.flat }
    {
        let x = self.register(rs1);
        self.operate(op, rd, x, Value::Num(word))
    }

    #[inline(always)]
    fn do_number(&mut self, rd: u8, word: u32) -> Result<Progress, AllocError>
        requires { rd < 32 }
        ensures step { (cures : Cures) → Takes cures self.old (λ input s. Goes (inf_next s rd (Num word)) []) result self.new }
        ensures mapping { mapping_in self.new.flat ≡ mapping_in self.old.flat }
    {
        self.pass_with(rd, Value::Num(word));
        Ok(Progress::Going)
    }

    #[inline(always)]
    fn do_auipc(&mut self, rd: u8, word: u32) -> Result<Progress, AllocError>
        requires { rd < 32 }
        ensures step { (cures : Cures) → Takes cures self.old (λ input s. Goes (inf_next s rd (Num ((s.pc + word) % 2 ^ 32))) []) result self.new }
        ensures mapping { mapping_in self.new.flat ≡ mapping_in self.old.flat }
    {
        let v = self.pc.wrapping_add(word);
        self.do_number(rd, v)
    }

    #[inline(always)]
    fn do_jal(&mut self, rd: u8, word: u32) -> Result<Progress, AllocError>
        requires { rd < 32 }
        ensures step { (cures : Cures) → Takes cures self.old (λ input s. inf_jump (record s { regs = set_reg s.regs rd (Num (after s.pc)); calls = after_jal rd (after s.pc) s.calls }) ((s.pc + word) % 2 ^ 32) []) result self.new }
        ensures mapping { mapping_in self.new.flat ≡ mapping_in self.old.flat }
    {
        let target = self.pc.wrapping_add(word);
        self.jump(&Instr::Jal { rd, imm: 0 }, rd, target)
    }

    #[inline(always)]
    fn do_jalr(&mut self, rd: u8, rs1: u8, word: u32) -> Result<Progress, AllocError>
        requires { (rd < 32) × (rs1 < 32) }
        ensures step { (cures : Cures) → Takes cures self.old (λ input s. inf_jalr s rd rs1 (lift (alignment_in s.objects) Add (s.regs rs1) (Num word))) result self.new }
        ensures mapping { mapping_in self.new.flat ≡ mapping_in self.old.flat }
    {
        let at = self.address(rs1, word);
        self.jump_by_value(rd, rs1, 0, at)
    }

    #[inline(always)]
    fn do_branch(
        &mut self,
        patches: &Patches,
        op: Op,
        rs1: u8,
        rs2: u8,
        word: u32,
    ) -> Result<Progress, AllocError>
        requires { (rs1 < 32) × (rs2 < 32) }
        ensures step { Takes (cures_of patches.now) self.old (λ input s. inf_branch s word (decide (size_in s.objects) op (s.regs rs1) (s.regs rs2))) result self.new }
        ensures mapping { mapping_in self.new.flat ≡ mapping_in self.old.flat }
    {
        let x = self.register(rs1);
        let y = self.register(rs2);
        self.branch(patches, op, x, y, word)
    }

    #[inline(always)]
    fn do_load(
        &mut self,
        patches: &Patches,
        op: Op,
        rd: u8,
        rs1: u8,
        word: u32,
    ) -> Result<Progress, AllocError>
        requires { IsTrue (is_load_op op) × (rd < 32) × (rs1 < 32) }
        ensures step { Takes (cures_of patches.now) self.old (λ input s. inf_load (mapping_in self.old.flat) s op rd (lift (alignment_in s.objects) Add (s.regs rs1) (Num word))) result self.new }
        ensures mapping { mapping_in self.new.flat ≡ mapping_in self.old.flat }
    {
        let at = self.address(rs1, word);
        self.load(patches, op, rd, at)
    }

    #[inline(always)]
    fn do_store(
        &mut self,
        patches: &Patches,
        op: Op,
        rs1: u8,
        rs2: u8,
        word: u32,
    ) -> Result<Progress, AllocError>
        requires { IsTrue (is_store_op op) × (rs1 < 32) × (rs2 < 32) }
        ensures step { Takes (cures_of patches.now) self.old (λ input s. inf_store (mapping_in self.old.flat) s op (s.regs rs2) (lift (alignment_in s.objects) Add (s.regs rs1) (Num word))) result self.new }
        ensures mapping { mapping_in self.new.flat ≡ mapping_in self.old.flat }
    {
        let v = self.register(rs2);
        let at = self.address(rs1, word);
        self.store(patches, op, v, at)
    }

    #[inline(always)]
    fn do_system(&mut self, patches: &Patches, op: Op) -> Result<Progress, AllocError>
        ensures step { Takes (cures_of patches.now) self.old (λ input s. inf_system (mapping_in self.old.flat) input s op) result self.new }
        ensures mapping { mapping_in self.new.flat ≡ mapping_in self.old.flat }
    {
        match op {
            Op::Ecall => self.call(patches),
            Op::Fence | Op::FenceI => {
                self.pass();
                Ok(Progress::Going)
            }
            _ => Ok(Progress::Faulted),
        }
    }

    /// Carries an instruction out.
    #[inline(always)]
    pub(crate) fn execute(
        &mut self,
        patches: &Patches,
        instr: Instr,
    ) -> Result<Progress, AllocError>
        requires range { IsInRange instr }
        ensures step { Takes (cures_of patches.now) self.old (λ input s. inf_do (mapping_in self.old.flat) input s instr) result self.new }
        ensures mapping { mapping_in self.new.flat ≡ mapping_in self.old.flat }
    {
        match instr {
            Instr::Alu { op, rd, rs1, rs2 } => self.do_alu(op, rd, rs1, rs2),
            Instr::AluImm { op, rd, rs1, imm } => self.do_immediate(
                op,
                rd,
                rs1,
                imm.cast_unsigned(),
            ),
            Instr::Lui { rd, top } => self.do_number(rd, top * 4096),
            Instr::Auipc { rd, top } => self.do_auipc(rd, top * 4096),
            Instr::Jal { rd, imm } => self.do_jal(rd, imm.cast_unsigned()),
            Instr::Jalr { rd, rs1, imm } => self.do_jalr(rd, rs1, imm.cast_unsigned()),
            Instr::Branch { op, rs1, rs2, imm } => self.do_branch(
                patches,
                op,
                rs1,
                rs2,
                imm.cast_unsigned(),
            ),
            Instr::Load { op, rd, rs1, imm } => self.do_load(
                patches,
                op,
                rd,
                rs1,
                imm.cast_unsigned(),
            ),
            Instr::Store { op, rs1, rs2, imm } => self.do_store(
                patches,
                op,
                rs1,
                rs2,
                imm.cast_unsigned(),
            ),
            Instr::System { op } => self.do_system(patches, op),
        }
    }
}
