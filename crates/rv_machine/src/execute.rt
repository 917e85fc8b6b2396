// The instructions.
ghost use Rattle.std.specs.Prelude.{◌≡◌, ◌<◌, ◌≤◌, ◌+◌, ◌*◌, ◌/◌, ◌%◌, ◌^◌, ℕ, List, true, false, IsTrue, Some};
ghost use Rattle.infinite_heap.specs.Alu.{alu};
ghost use Rattle.infinite_heap.specs.InRange.{is_load_op, is_store_op};
ghost use Rattle.infinite_heap.specs.InfiniteState.{after};
ghost use Rattle.infinite_heap.specs.declared.instr.Operation.TheVariants.{Add};
ghost use Rattle.site_hash.specs.Hint.{hinted};
ghost use Rattle.rv_machine.specs.Core.{register, with_register, stepped, passed, Goes, Faults};
ghost use Rattle.rv_machine.specs.Steps.{holds, branched, operate, jump_and_link, load, store};
ghost use Rattle.rv_machine.specs.Fields.{NamesRegisters, jumping, jumping_by_register, carried};
ghost use Rattle.rv_machine.specs.Harts.{core_of, waits, is_spent, IsAt, Keeps, Steps, Executes};

use crate::ended::Ended;
use crate::fields::Fields;
use crate::hart::Hart;
use crate::outcome::Outcome;
use crate::stop::Stop;
use infinite_heap::{FaultKind, Instr, Op, Operation, alu};

// The answer to the question that a branch asks.
#[inline(always)]
fn holds(op: Op, x: u32, y: u32) -> bool
    ensures { result ≡ holds op x y }
{
    match op {
        Op::Beq => x == y,
        Op::Bne => x != y,
        Op::Blt => x.cast_signed() < y.cast_signed(),
        Op::Bge => !(x.cast_signed() < y.cast_signed()),
        Op::Bltu => x < y,
        Op::Bgeu => !(x < y),
        _ => false,
    }
}

impl Hart {
    #[inline(always)]
    pub(crate) fn register(&self, r: u8) -> u32
        requires { r < 32 }
        ensures { result ≡ register (core_of self.now) r }
    {
        self.registers[r as usize]
    }

    // Ends the guest with a fault.
    pub(crate) fn fault(&mut self, pc: u32, kind: FaultKind, addr: u32) -> Stop
        requires at { pc ≡ self.old.pc }
        requires ready { IsAt (core_of self.old) self.old }
        ensures step { Steps (core_of self.old) (Faults kind addr) result self.new }
        ensures count { (core_of self.new).steps ≤ (core_of self.old).steps + 1 }
        ensures taken { Keeps self.old self.new }
    {
        self.ended = Some(Ended::Faulted { kind, pc, addr });
        Stop::Fault { kind, pc, addr }
    }

    // Goes to the next instruction.
    #[inline(always)]
    pub(crate) fn pass(&mut self, pc: u32) -> Outcome
        requires at { pc ≡ self.old.pc }
        requires count { self.old.steps < 2 ^ 62 }
        requires ready { IsAt (core_of self.old) self.old }
        ensures going { result ≡ Outcome.Going }
        ensures step { IsAt (passed (core_of self.old)) self.new }
        ensures count { (core_of self.new).steps ≤ (core_of self.old).steps + 1 }
        ensures taken { Keeps self.old self.new }
    {
        self.pc = pc.wrapping_add(4);
        self.steps += 1;
        Outcome::Going
    }

    // Writes a register and goes to the next instruction.
    #[inline(always)]
    pub(crate) fn step_over(&mut self, pc: u32, rd: u8, value: u32) -> Outcome
        requires at { pc ≡ self.old.pc }
        requires register { rd < 32 }
        requires count { self.old.steps < 2 ^ 62 }
        requires ready { IsAt (core_of self.old) self.old }
        ensures going { result ≡ Outcome.Going }
        ensures step { IsAt (stepped (core_of self.old) rd value) self.new }
        ensures count { (core_of self.new).steps ≤ (core_of self.old).steps + 1 }
        ensures taken { Keeps self.old self.new }
    {
        if rd != 0 {
            self.registers[rd as usize] = value;
        }
        self.pc = pc.wrapping_add(4);
        self.steps += 1;
        Outcome::Going
    }

    // An operation on two registers.
    #[inline(always)]
    fn on_registers(&mut self, pc: u32, operation: Operation, fields: &Fields) -> Outcome
        requires at { pc ≡ self.old.pc }
        requires small { NamesRegisters fields.now }
        requires count { self.old.steps < 2 ^ 62 }
        requires ready { IsAt (core_of self.old) self.old }
        ensures step { Executes (core_of self.old) (operate (core_of self.old) fields.now.rd (Some operation) (register (core_of self.old) fields.now.rs1) (register (core_of self.old) fields.now.rs2)) result self.new }
        ensures count { (core_of self.new).steps ≤ (core_of self.old).steps + 1 }
        ensures taken { Keeps self.old self.new }
    {
        let x = self.register(fields.rs1);
        let y = self.register(fields.rs2);
        self.step_over(pc, fields.rd, alu(operation, x, y))
    }

    // An operation on a register and an immediate.
    #[inline(always)]
    fn on_immediate(&mut self, pc: u32, operation: Operation, fields: &Fields) -> Outcome
        requires at { pc ≡ self.old.pc }
        requires small { NamesRegisters fields.now }
        requires count { self.old.steps < 2 ^ 62 }
        requires ready { IsAt (core_of self.old) self.old }
        ensures step { Executes (core_of self.old) (operate (core_of self.old) fields.now.rd (Some operation) (register (core_of self.old) fields.now.rs1) fields.now.imm) result self.new }
        ensures count { (core_of self.new).steps ≤ (core_of self.old).steps + 1 }
        ensures taken { Keeps self.old self.new }
    {
        let x = self.register(fields.rs1);
        self.step_over(pc, fields.rd, alu(operation, x, fields.imm))
    }

    // Goes to a target, and leaves the return address in a register.
    #[inline(always)]
    fn jump(&mut self, pc: u32, instr: &Instr, rd: u8, target: u32) -> Outcome
        requires at { pc ≡ self.old.pc }
        requires register { rd < 32 }
        requires count { self.old.steps < 2 ^ 62 }
        requires ready { IsAt (core_of self.old) self.old }
        ensures step { Executes (core_of self.old) (jump_and_link (core_of self.old) rd target (hinted instr.now (after pc) (core_of self.old).calls)) result self.new }
        ensures count { (core_of self.new).steps ≤ (core_of self.old).steps + 1 }
        ensures taken { Keeps self.old self.new }
    {
        if target % 4 != 0 {
            return Outcome::Fault {
                kind: FaultKind::Jump,
                addr: target,
            };
        }
        let link = pc.wrapping_add(4);
        self.calls.hint(instr, link);
        if rd != 0 {
            self.registers[rd as usize] = link;
        }
        self.pc = target;
        self.steps += 1;
        Outcome::Going
    }

    #[inline(always)]
    fn branch(&mut self, pc: u32, taken: bool, offset: u32) -> Outcome
        requires at { pc ≡ self.old.pc }
        requires count { self.old.steps < 2 ^ 62 }
        requires ready { IsAt (core_of self.old) self.old }
        ensures step { Executes (core_of self.old) (branched (core_of self.old) offset taken) result self.new }
        ensures count { (core_of self.new).steps ≤ (core_of self.old).steps + 1 }
        ensures taken { Keeps self.old self.new }
    {
        if !taken {
            return self.pass(pc);
        }
        let target = pc.wrapping_add(offset);
        if target % 4 != 0 {
            return Outcome::Fault {
                kind: FaultKind::Jump,
                addr: target,
            };
        }
        self.pc = target;
        self.steps += 1;
        Outcome::Going
    }

    #[inline(always)]
    fn branch_by(&mut self, pc: u32, op: Op, fields: &Fields) -> Outcome
        requires at { pc ≡ self.old.pc }
        requires small { NamesRegisters fields.now }
        requires count { self.old.steps < 2 ^ 62 }
        requires ready { IsAt (core_of self.old) self.old }
        ensures step { Executes (core_of self.old) (branched (core_of self.old) fields.now.imm (holds op (register (core_of self.old) fields.now.rs1) (register (core_of self.old) fields.now.rs2))) result self.new }
        ensures count { (core_of self.new).steps ≤ (core_of self.old).steps + 1 }
        ensures taken { Keeps self.old self.new }
    {
        let x = self.register(fields.rs1);
        let y = self.register(fields.rs2);
        self.branch(pc, holds(op, x, y), fields.imm)
    }

    #[inline(always)]
    fn jump_to(&mut self, pc: u32, fields: &Fields) -> Outcome
        requires at { pc ≡ self.old.pc }
        requires small { NamesRegisters fields.now }
        requires count { self.old.steps < 2 ^ 62 }
        requires ready { IsAt (core_of self.old) self.old }
        ensures step { Executes (core_of self.old) (jumping (core_of self.old) fields.now) result self.new }
        ensures count { (core_of self.new).steps ≤ (core_of self.old).steps + 1 }
        ensures taken { Keeps self.old self.new }
    {
        let instr = Instr::Jal {
            rd: fields.rd,
            imm: fields.imm.cast_signed(),
        };
        self.jump(pc, &instr, fields.rd, pc.wrapping_add(fields.imm))
    }

    #[inline(always)]
    fn jump_by_register(&mut self, pc: u32, fields: &Fields) -> Outcome
        requires at { pc ≡ self.old.pc }
        requires small { NamesRegisters fields.now }
        requires count { self.old.steps < 2 ^ 62 }
        requires ready { IsAt (core_of self.old) self.old }
        ensures step { Executes (core_of self.old) (jumping_by_register (core_of self.old) fields.now) result self.new }
        ensures count { (core_of self.new).steps ≤ (core_of self.old).steps + 1 }
        ensures taken { Keeps self.old self.new }
    {
        let instr = Instr::Jalr {
            rd: fields.rd,
            rs1: fields.rs1,
            imm: fields.imm.cast_signed(),
        };
        let target = self.register(fields.rs1).wrapping_add(fields.imm) / 2 * 2;
        self.jump(pc, &instr, fields.rd, target)
    }

    #[inline(always)]
    fn load_from(&mut self, pc: u32, op: Op, fields: &Fields) -> Outcome
        requires at { pc ≡ self.old.pc }
        requires small { NamesRegisters fields.now }
        requires kind { IsTrue (is_load_op op) }
        requires count { self.old.steps < 2 ^ 62 }
        requires ready { IsAt (core_of self.old) self.old }
        ensures step { Executes (core_of self.old) (load (core_of self.old) op fields.now.rd (alu Add (register (core_of self.old) fields.now.rs1) fields.now.imm)) result self.new }
        ensures count { (core_of self.new).steps ≤ (core_of self.old).steps + 1 }
        ensures taken { Keeps self.old self.new }
    {
        let addr = self.register(fields.rs1).wrapping_add(fields.imm);
        self.load(pc, op, fields.rd, addr)
    }

    #[inline(always)]
    fn store_to(&mut self, pc: u32, op: Op, fields: &Fields) -> Outcome
        requires at { pc ≡ self.old.pc }
        requires small { NamesRegisters fields.now }
        requires kind { IsTrue (is_store_op op) }
        requires count { self.old.steps < 2 ^ 62 }
        requires ready { IsAt (core_of self.old) self.old }
        ensures step { Executes (core_of self.old) (store (core_of self.old) op (register (core_of self.old) fields.now.rs2) (alu Add (register (core_of self.old) fields.now.rs1) fields.now.imm)) result self.new }
        ensures count { (core_of self.new).steps ≤ (core_of self.old).steps + 1 }
        ensures taken { Keeps self.old self.new }
    {
        let addr = self.register(fields.rs1).wrapping_add(fields.imm);
        self.store(pc, op, addr, self.register(fields.rs2))
    }

    // Memory was wanting.
    #[cold]
    #[inline(never)]
    pub(crate) fn give_up(&mut self) -> Stop
        ensures stop { result ≡ Stop.Memory }
        ensures spent { is_spent self.new ≡ true }
        ensures space { self.new.space ≡ self.old.space }
        ensures count { (core_of self.new).steps ≡ (core_of self.old).steps }
        ensures taken { Keeps self.old self.new }
    {
        self.spent = true;
        Stop::Memory
    }

    // One jump leads to each instruction's own code, in which all but its fields is constant.
    #[inline(always)]
    pub(crate) fn execute<K>(&mut self, pc: u32, fields: &Fields) -> Outcome
        requires at { pc ≡ self.old.pc }
        requires small { NamesRegisters fields.now }
        requires count { self.old.steps < 2 ^ 62 }
        requires ready { IsAt (core_of self.old) self.old }
        ensures step { Executes (core_of self.old) (carried (core_of self.old) fields.now) result self.new }
        ensures count { (core_of self.new).steps ≤ (core_of self.old).steps + 1 }
        ensures taken { Keeps self.old self.new }
    {
        match fields.op {
            Op::Add => self.on_registers(pc, Operation::Add, fields),
            Op::Sub => self.on_registers(pc, Operation::Sub, fields),
            Op::Sll => self.on_registers(pc, Operation::Sll, fields),
            Op::Slt => self.on_registers(pc, Operation::Slt, fields),
            Op::Sltu => self.on_registers(pc, Operation::Sltu, fields),
            Op::Xor => self.on_registers(pc, Operation::Xor, fields),
            Op::Srl => self.on_registers(pc, Operation::Srl, fields),
            Op::Sra => self.on_registers(pc, Operation::Sra, fields),
            Op::Or => self.on_registers(pc, Operation::Or, fields),
            Op::And => self.on_registers(pc, Operation::And, fields),
            Op::Mul => self.on_registers(pc, Operation::Mul, fields),
            Op::Mulh => self.on_registers(pc, Operation::Mulh, fields),
            Op::Mulhsu => self.on_registers(pc, Operation::Mulhsu, fields),
            Op::Mulhu => self.on_registers(pc, Operation::Mulhu, fields),
            Op::Div => self.on_registers(pc, Operation::Div, fields),
            Op::Divu => self.on_registers(pc, Operation::Divu, fields),
            Op::Rem => self.on_registers(pc, Operation::Rem, fields),
            Op::Remu => self.on_registers(pc, Operation::Remu, fields),
            Op::Addi => self.on_immediate(pc, Operation::Add, fields),
            Op::Slti => self.on_immediate(pc, Operation::Slt, fields),
            Op::Sltiu => self.on_immediate(pc, Operation::Sltu, fields),
            Op::Xori => self.on_immediate(pc, Operation::Xor, fields),
            Op::Ori => self.on_immediate(pc, Operation::Or, fields),
            Op::Andi => self.on_immediate(pc, Operation::And, fields),
            Op::Slli => self.on_immediate(pc, Operation::Sll, fields),
            Op::Srli => self.on_immediate(pc, Operation::Srl, fields),
            Op::Srai => self.on_immediate(pc, Operation::Sra, fields),
            Op::Beq => self.branch_by(pc, Op::Beq, fields),
            Op::Bne => self.branch_by(pc, Op::Bne, fields),
            Op::Blt => self.branch_by(pc, Op::Blt, fields),
            Op::Bge => self.branch_by(pc, Op::Bge, fields),
            Op::Bltu => self.branch_by(pc, Op::Bltu, fields),
            Op::Bgeu => self.branch_by(pc, Op::Bgeu, fields),
            Op::Lb => self.load_from(pc, Op::Lb, fields),
            Op::Lh => self.load_from(pc, Op::Lh, fields),
            Op::Lw => self.load_from(pc, Op::Lw, fields),
            Op::Lbu => self.load_from(pc, Op::Lbu, fields),
            Op::Lhu => self.load_from(pc, Op::Lhu, fields),
            Op::Sb => self.store_to(pc, Op::Sb, fields),
            Op::Sh => self.store_to(pc, Op::Sh, fields),
            Op::Sw => self.store_to(pc, Op::Sw, fields),
            Op::Lui => self.step_over(pc, fields.rd, fields.imm),
            Op::Auipc => self.step_over(pc, fields.rd, pc.wrapping_add(fields.imm)),
            Op::Jal => self.jump_to(pc, fields),
            Op::Jalr => self.jump_by_register(pc, fields),
            Op::Ecall => Outcome::Call,
            Op::Ebreak => Outcome::Fault {
                kind: FaultKind::Break,
                addr: pc,
            },
            Op::Fence | Op::FenceI => self.pass(pc),
        }
    }
}
