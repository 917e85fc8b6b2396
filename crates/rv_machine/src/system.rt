// Environment calls, breakpoints and fences.
ghost use Rattle.std.specs.Prelude.{◌≡◌, ◌≢◌, ◌<◌, ◌≤◌, ◌+◌, ◌-◌, ◌%◌, ◌^◌, ℕ, List, true, false, Some, IfOk, IsSome, length};
ghost use Rattle.infinite_heap.specs.InfiniteSystem.{is_printed};
ghost use Rattle.rv_memory.specs.Memory.{span, is_lawful};
ghost use Rattle.rv_machine.specs.Core.{Exits, exited, register};
ghost use Rattle.rv_machine.specs.Steps.{next, system, ecall, read_call, write_call, prints, answers};
ghost use Rattle.rv_machine.specs.Harts.{core_of, waits, is_spent, IsAt, AwaitsAt, Keeps, Steps, Gives, Finishes};
ghost use Rattle.rv_machine.specs.Stops.{Takes, IsPrint};

use crate::ended::Ended;
use crate::hart::Hart;
use crate::stop::{Stop, Waiting};
use infinite_heap::{FaultKind, Op};
use std::alloc::{AllocError, Global};

const BAD_DESCRIPTOR: u32 = 0xFFFF_FFF7;

const BAD_SPAN: u32 = 0xFFFF_FFF2;

const NO_CALL: u32 = 0xFFFF_FFDA;

impl Hart {
    // a0 gets an answer.
    fn answer(&mut self, pc: u32, value: u32) -> Stop
        requires at { pc ≡ self.old.pc }
        requires count { self.old.steps < 2 ^ 62 }
        requires ready { IsAt (core_of self.old) self.old }
        ensures step { Steps (core_of self.old) (answers (core_of self.old) value) result self.new }
        ensures count { (core_of self.new).steps ≤ (core_of self.old).steps + 1 }
        ensures taken { Keeps self.old self.new }
    {
        self.step_over(pc, 10, value);
        Stop::Going
    }

    fn read(&mut self, pc: u32, fd: u32, addr: u32, len: u32) -> Stop
        requires at { pc ≡ self.old.pc }
        requires count { self.old.steps < 2 ^ 62 }
        requires ready { IsAt (core_of self.old) self.old }
        ensures step { Steps (core_of self.old) (read_call (core_of self.old) fd addr len) result self.new }
        ensures count { (core_of self.new).steps ≤ (core_of self.old).steps + 1 }
        ensures taken { Keeps self.old self.new }
    {
        if fd != 0 {
            return self.answer(pc, BAD_DESCRIPTOR);
        }
        if len == 0 {
            return self.answer(pc, 0);
        }
        if !self.space.span_ok(addr, len, true) {
            return self.answer(pc, BAD_SPAN);
        }
        self.wait_for(Waiting::ReadBytes);
        Stop::Read { addr, len }
    }

    fn write(&mut self, pc: u32, fd: u32, addr: u32, len: u32) -> Stop
        requires at { pc ≡ self.old.pc }
        requires count { self.old.steps < 2 ^ 62 }
        requires ready { IsAt (core_of self.old) self.old }
        ensures step { Steps (core_of self.old) (write_call (core_of self.old) fd addr len) result self.new }
        ensures count { (core_of self.new).steps ≤ (core_of self.old).steps + 1 }
        ensures taken { Keeps self.old self.new }
    {
        if fd != 1 && fd != 2 {
            return self.answer(pc, BAD_DESCRIPTOR);
        }
        if len == 0 {
            return self.answer(pc, 0);
        }
        if !self.space.span_ok(addr, len, false) {
            return self.answer(pc, BAD_SPAN);
        }
        self.print(fd, addr, len)
    }

    // Waits until the bytes of a lawful span are printed.
    fn print(&mut self, fd: u32, addr: u32, len: u32) -> Stop
        requires printed { is_printed fd ≡ true }
        requires lawful { is_lawful (core_of self.old).memory addr len false ≡ true }
        requires ready { IsAt (core_of self.old) self.old }
        ensures step { Steps (core_of self.old) (prints (core_of self.old) fd addr len (span (core_of self.old).memory.bytes addr len)) result self.new }
        ensures count { (core_of self.new).steps ≡ (core_of self.old).steps }
        ensures taken { Keeps self.old self.new }
    {
        self.wait_for(Waiting::WriteDone);
        Stop::Write { fd, addr, len }
    }

    fn wait_for(&mut self, waiting: Waiting)
        requires { IsAt (core_of self.old) self.old }
        ensures awaits { AwaitsAt (core_of self.old) waiting self.new }
        ensures taken { Keeps self.old self.new }
    {
        self.waiting = waiting;
    }

    fn exit(&mut self) -> Stop
        requires count { self.old.steps < 2 ^ 62 }
        requires ready { IsAt (core_of self.old) self.old }
        ensures step { Steps (core_of self.old) (Exits (register (core_of self.old) 10 % 256) (exited (core_of self.old) (register (core_of self.old) 10 % 256))) result self.new }
        ensures count { (core_of self.new).steps ≤ (core_of self.old).steps + 1 }
        ensures taken { Keeps self.old self.new }
    {
        let code = (self.registers[10] % 256) as u8;
        self.ended = Some(Ended::Exited(code));
        self.steps += 1;
        Stop::Ended(code)
    }

    #[inline(never)]
    pub(crate) fn call(&mut self, pc: u32) -> Stop
        requires at { pc ≡ self.old.pc }
        requires count { self.old.steps < 2 ^ 62 }
        requires ready { IsAt (core_of self.old) self.old }
        ensures step { Steps (core_of self.old) (ecall (core_of self.old) (register (core_of self.old) 17)) result self.new }
        ensures count { (core_of self.new).steps ≤ (core_of self.old).steps + 1 }
        ensures taken { Keeps self.old self.new }
    {
        let fd = self.registers[10];
        let addr = self.registers[11];
        let len = self.registers[12];
        match self.registers[17] {
            93 | 94 => self.exit(),
            63 => self.read(pc, fd, addr, len),
            64 => self.write(pc, fd, addr, len),
            _ => self.answer(pc, NO_CALL),
        }
    }

    // Finishes a read with at most as many bytes as it asked for: they stand at its address, a0 gets their
    // number, and the step is counted.
    pub(crate) fn give(&mut self, bytes: &[u8]) -> Result<(), AllocError>
        requires count { (core_of self.old).steps < 2 ^ 62 }
        requires sound { is_spent self.old ≡ false }
        requires takes { Takes (next (core_of self.old)) (waits self.old) bytes.now }
        ensures gives { Gives (core_of self.old) (next (core_of self.old)) bytes.now result self.new }
        ensures count { (core_of self.new).steps ≤ (core_of self.old).steps + 1 }
        ensures taken { Keeps self.old self.new }
    {
        let pc = self.pc;
        let addr = self.registers[11];
        self.waiting = Waiting::Nothing;
        match self.space.span_write(addr, bytes) {
            Ok(()) => {
                self.step_over(pc, 10, bytes.len() as u32);
                Ok(())
            }
            Err(_) => {
                self.give_up();
                Err(AllocError)
            }
        }
    }

    // Finishes a write: a0 gets the number of bytes, and the step is counted.
    pub(crate) fn wrote(&mut self)
        requires count { (core_of self.old).steps < 2 ^ 62 }
        requires sound { is_spent self.old ≡ false }
        requires waits { waits self.old ≡ Waiting.WriteDone }
        requires prints { IsPrint (next (core_of self.old)) }
        ensures finishes { Finishes (next (core_of self.old)) self.new }
        ensures count { (core_of self.new).steps ≤ (core_of self.old).steps + 1 }
        ensures taken { Keeps self.old self.new }
    {
        let pc = self.pc;
        let len = self.registers[12];
        self.waiting = Waiting::Nothing;
        self.step_over(pc, 10, len);
    }

    // The bytes of a mapped span.
    pub(crate) fn bytes_of(&self, alloc: Global, addr: u32, len: u32) -> Result<Vec<u8>, AllocError>
        requires { IsSome (span (core_of self.now).memory.bytes addr len) }
        ensures { IfOk result (λ bytes. span (core_of self.now).memory.bytes addr len ≡ Some bytes.items) }
    {
        let mut bytes = vec![in alloc; 0; len as usize]?;
        let _ = self.space.span_read(addr, &mut bytes);
        Ok(bytes)
    }
}
