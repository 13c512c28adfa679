// The machine and its steps.
ghost use Rattle.std.specs.Prelude.{Bool, ◌⊎◌, ◌≡◌, ◌≢◌, ◌≤◌, ◌<◌, ◌+◌, ◌-◌, ◌*◌, ◌/◌, ◌%◌, ◌^◌, ◌*ℤ◌, ◌==◌, ℕ, List, [], IsTrue, IsSome, IfOk, OnOk, ◌++◌, ◌∷◌, All, true, false, length, map, slice_index, Option, Some, None, is_some, option_map};
ghost use Rattle.om_io.specs.Causes.{Rose};
ghost use Rattle.om_isa.specs.Registers.{access_of};
ghost use Rattle.om_isa.specs.SystemCall.{heap_call, read_call, write_call, Takes, Resizes, heap_limit};
ghost use Rattle.om_isa.specs.Target.{displaced};
ghost use Rattle.om_isa.specs.Words.{instr_of};
ghost use Rattle.om_isa.specs.declared.instr.Instr.TheVariants as instr;
ghost use Rattle.om_image.specs.NumState.{NumState, with_register, stack_base, stack_top};
ghost use Rattle.om_image.specs.NumAccess.{size_bytes, is_mapped, bytes_from, size_of, address_scale, accessed, extended, plus};
ghost use Rattle.om_image.specs.NumStep.{is_text, operand, after, num_start, heap_ask, answers, calls, resized_memory};
ghost use Rattle.om_image.specs.Valid.{IsValidImage};
ghost use Rattle.om_machine.specs.Actions.{effect_in, IsDoable};
ghost use Rattle.om_machine.specs.Calls.{call_in, IsServed, view_bytes, view_room, descriptor_number, IsState, FailsToTake, CallsTo, IsAnswer, IsTaking, IsPutting};
ghost use Rattle.om_machine.specs.Memory.{memory_of};
ghost use Rattle.om_machine.specs.Streams.{Puts, Told};
ghost use Rattle.om_machine.specs.Steps.{StepsTo, RunsTo, IsCallNext};
ghost use Rattle.om_machine.specs.View.{HasImage, state_of, end_of, instr_at, view_register, view_load, view_store, view_access, view_jump, view_branch, view_alu, view_effect, view_call, view_step};

use crate::actions::{
    Action, TEXT_BASE, address_of, displaced_by, extend, in_text, is_aligned, scaled, size_of_op,
    sum,
};
use crate::loading::{first_registers, read_code, set_register};
use crate::memory::Memory;
use crate::requests::{Descriptor, Request};
use crate::streams::{put_all, take_all};
use om_alpha::{AluOp, Cond, TrapKind, alu, holds, overflows};
use om_image::Image;
use om_io::{NoMemory, Sink, Source};
use om_isa::{Access, BrOp, Instr, MemOp, Opnd, Reg, access_kind};
use std::alloc::Global;
use std::marker::Model;

const HEAP_BASE: u64 = 0x1_6000_0000;

const HEAP_LIMIT: u64 = 0x100_0000;

/// What a step answers.
#[derive(Clone, Copy, PartialEq, Eq, Debug)]
pub enum Step {
    /// The run goes on.
    Went,
    /// The run has ended with a status.
    Exit(u8),
    /// The run has ended by a trap of the instruction at an address.
    Trap { kind: TrapKind, at: u64 },
    /// A read of the input failed.
    ReadFault,
    /// A put of the output failed.
    WriteFault,
}

/// How a run has ended.
#[derive(Clone, Copy, PartialEq, Eq, Debug)]
pub enum Ending {
    /// With a status.
    Exited(u8),
    /// By a trap of the instruction at an address.
    Trapped(TrapKind, u64),
}

/// A run of an image: the registers, the address of the next instruction, the memory, and how the run has ended, if it
/// has.
#[derive(Drop)]
pub struct Machine {
    registers: [u64; 32],
    pc: u64,
    code: Vec<Instr>,
    memory: Memory,
    end: Option<Ending>,
}

impl Model for Machine {
    ghost use Rattle.std.specs.Prelude.{◌≤◌, length};
    ghost use Rattle.om_machine.specs.Memory.{memory_of};
    ghost use Rattle.om_machine.specs.Streams.{Puts, Told};
    ghost use Rattle.om_machine.specs.View.{View};

    ghost Value = { View };

    ghost view = { λ m. record { registers = m.registers; pc = m.pc; code = m.code.items; memory = m.memory; end = m.end } };

    ghost invariant = { λ m. length m.code.items ≤ 4194304 };
}

impl Machine {
    /// The machine at the start of a run of a valid image.
    pub fn load(alloc: Global, i: &Image) -> Result<Machine, NoMemory>
        requires { IsValidImage i.now }
        ensures image { IfOk result (HasImage i.now) }
        ensures start { IfOk result (λ m. (input : List ℕ) → state_of m input [] [] ≡ num_start i.now input) }
    {
        let code = read_code(alloc, i.text.as_slice())?;
        let memory = Memory::new(alloc, i.bytes.as_slice(), i.bss)?;
        Ok(Machine {
            registers: first_registers(i.entry, i.gp),
            pc: i.entry,
            code,
            memory,
            end: None,
        })
    }

    /// The address of the next instruction.
    pub fn pc(&self) -> u64
        ensures { result ≡ self.now.pc }
    {
        self.pc
    }

    /// Whether the run has ended.
    pub fn ended(&self) -> bool
        ensures { result ≡ is_some self.now.end }
    {
        self.end.is_some()
    }

    fn register(&self, r: Reg) -> u64
        ensures { result ≡ view_register self.now r }
    {
        if r.num() == 31 {
            0
        } else {
            self.registers[r.num() as usize]
        }
    }

    fn operand(&self, rb: Opnd) -> u64
        ensures { result ≡ operand 0 0 0 (slice_index self.now.registers) (λ a. 0) 0 rb }
    {
        match rb {
            Opnd::R(r) => self.register(r),
            Opnd::Lit(n) => u64::from(n),
        }
    }

    fn load_action(&self, op: MemOp, ra: Reg, address: u64) -> Action
        ensures value { effect_in result ≡ view_load self.now op ra address }
        ensures doable { IsDoable self.now.memory result }
    {
        let size = size_of_op(op);
        if !is_aligned(size, address) {
            return Action::Stop(TrapKind::Unaligned);
        }
        match self.memory.load(address, size) {
            Some(n) => Action::Set(ra.num(), extend(op, n)),
            None => Action::Stop(TrapKind::Access),
        }
    }

    fn store_action(&self, op: MemOp, n: u64, address: u64) -> Action
        ensures value { effect_in result ≡ view_store self.now op n address }
        ensures doable { IsDoable self.now.memory result }
    {
        let size = size_of_op(op);
        if !is_aligned(size, address) {
            return Action::Stop(TrapKind::Unaligned);
        }
        if self.memory.maps(address, size) {
            Action::Store(address, size, n)
        } else {
            Action::Stop(TrapKind::Access)
        }
    }

    fn memory_action(&self, op: MemOp, ra: Reg, base: u64, disp: i16) -> Action
        ensures value { effect_in result ≡ view_access self.now (access_of op) op ra base disp }
        ensures doable { IsDoable self.now.memory result }
    {
        match access_kind(op) {
            Access::Address => Action::Set(ra.num(), sum(base, scaled(op, disp))),
            Access::Load => {
                if ra.num() == 31 {
                    Action::Nothing
                } else {
                    self.load_action(op, ra, address_of(op, base, disp))
                }
            }
            Access::Store => self.store_action(op, self.register(ra), address_of(op, base, disp)),
        }
    }

    fn jump_action(&self, ra: Reg, base: u64) -> Action
        ensures value { effect_in result ≡ view_jump self.now ra base }
        ensures doable { IsDoable self.now.memory result }
    {
        let to = base / 4 * 4;
        if in_text(self.code.len(), to) {
            Action::Jump(Some(ra.num()), to)
        } else {
            Action::Stop(TrapKind::Access)
        }
    }

    fn branch_action(&self, op: BrOp, ra: Reg, to: u64) -> Action
        ensures value { effect_in result ≡ view_branch self.now op ra to }
        ensures doable { IsDoable self.now.memory result }
    {
        match op {
            BrOp::Br => Action::Jump(Some(ra.num()), to),
            BrOp::Bsr => Action::Jump(Some(ra.num()), to),
            BrOp::If(c) => {
                if holds(c, self.register(ra)) {
                    Action::Jump(None, to)
                } else {
                    Action::Nothing
                }
            }
        }
    }

    fn alu_action(&self, op: AluOp, a: u64, b: u64, rc: Reg) -> Action
        ensures value { effect_in result ≡ view_alu self.now op a b rc }
        ensures doable { IsDoable self.now.memory result }
    {
        if overflows(op, a, b) {
            Action::Stop(TrapKind::Overflow)
        } else {
            Action::Set(rc.num(), alu(op, a, b))
        }
    }

    fn move_action(&self, c: Cond, ra: Reg, rb: Opnd, rc: Reg) -> Action
        ensures value { effect_in result ≡ view_effect self.now (instr.Cmov c ra rb rc) }
        ensures doable { IsDoable self.now.memory result }
    {
        if holds(c, self.register(ra)) {
            Action::Set(rc.num(), self.operand(rb))
        } else {
            Action::Nothing
        }
    }

    fn action_of(&self, i: Instr) -> Action
        requires { i ≢ instr.Callsys }
        ensures value { effect_in result ≡ view_effect self.now i }
        ensures doable { IsDoable self.now.memory result }
    {
        match i {
            Instr::Mem { op, ra, rb, disp } => self.memory_action(op, ra, self.register(rb), disp),
            Instr::Jump { ra, rb, .. } => self.jump_action(ra, self.register(rb)),
            Instr::Branch { op, ra, disp } => {
                self.branch_action(op, ra, displaced_by(self.pc, disp))
            }
            Instr::Alu { op, ra, rb, rc } => {
                self.alu_action(op, self.register(ra), self.operand(rb), rc)
            }
            Instr::Cmov { cond, ra, rb, rc } => self.move_action(cond, ra, rb, rc),
            Instr::Misc { .. } => Action::Nothing,
            Instr::Fnop => Action::Nothing,
            Instr::Halt => Action::Stop(TrapKind::Halt),
            Instr::Callsys => unreachable!(),
        }
    }

    fn fetch(&self) -> Option<Instr>
        ensures value { result ≡ instr_at self.now.code self.now.pc }
        ensures range { IsSome result → self.now.pc < 2 ^ 63 }
    {
        if in_text(self.code.len(), self.pc) && self.pc % 4 == 0 {
            self.code.get(((self.pc - TEXT_BASE) / 4) as usize).copied()
        } else {
            None
        }
    }

    fn set(&mut self, r: u8, n: u64)
        requires { r < 32 }
        ensures same { self.new ≡ record self.old { registers = self.new.registers } }
        ensures registers { (x : ℕ) → slice_index self.new.registers x ≡ with_register (slice_index self.old.registers) r n x }
    {
        set_register(&mut self.registers, r, n);
    }

    fn advance(&mut self)
        requires { self.old.pc < 2 ^ 63 }
        ensures { self.new ≡ record self.old { pc = self.old.pc + 4 } }
    {
        self.pc += 4;
    }

    fn stop(&mut self, kind: TrapKind)
        ensures { self.new ≡ record self.old { end = Some (Ending.Trapped kind self.old.pc) } }
    {
        self.end = Some(Ending::Trapped(kind, self.pc));
    }

    fn apply(&mut self, action: Action)
        requires doable { IsDoable self.old.memory action }
        requires place { self.old.pc < 2 ^ 63 }
        ensures state { (input out err : List ℕ) → state_of self.new input out err ≡ after (state_of self.old input out err) (effect_in action) }
        ensures code { self.new.code ≡ self.old.code }
        ensures size { length self.new.memory.bytes ≡ length self.old.memory.bytes }
    {
        match action {
            Action::Nothing => self.advance(),
            Action::Set(r, n) => {
                self.set(r, n);
                self.advance();
            }
            Action::Store(address, size, n) => {
                self.memory.store(address, size, n);
                self.advance();
            }
            Action::Jump(None, to) => self.pc = to,
            Action::Jump(Some(r), to) => {
                self.set(r, self.pc + 4);
                self.pc = to;
            }
            Action::Stop(kind) => self.stop(kind),
        }
    }

    /// Does what the instruction does, but for a system call: whether it is one.
    fn plain_step(&mut self) -> bool
        ensures state { result ≡ false → (input out err : List ℕ) → state_of self.new input out err
            ≡ view_step self.old (state_of self.old input out err) (option_map end_of self.old.end) }
        ensures call { IsTrue result → self.new ≡ self.old }
        ensures callsys { IsTrue result → instr_at self.old.code self.old.pc ≡ Some instr.Callsys }
        ensures running { IsTrue result → self.old.end ≡ None }
        ensures place { IsTrue result → self.old.pc < 2 ^ 63 }
        ensures ended { IsSome self.old.end → (self.new ≡ self.old) × (result ≡ false) }
        ensures code { self.new.code ≡ self.old.code }
        ensures size { length self.new.memory.bytes ≡ length self.old.memory.bytes }
    {
        if self.end.is_some() {
            return false;
        }
        let Some(instr) = self.fetch() else {
            self.stop(TrapKind::Access);
            return false;
        };
        if let Instr::Callsys = instr {
            return true;
        }
        let action = self.action_of(instr);
        self.apply(action);
        false
    }

    fn heap_request(&self, a0: u64) -> Request
        ensures value { call_in self.now result ≡ heap_call self.now.memory.heap_size (heap_ask 0 0 0 (λ r. 0) (λ a. 0) 0 a0) }
        ensures served { IsServed self.now result }
    {
        if a0 == 0 {
            Request::HeapEnd
        } else if HEAP_BASE <= a0 {
            if a0 - HEAP_BASE <= HEAP_LIMIT {
                Request::Resize(a0 - HEAP_BASE)
            } else {
                Request::Answer(12, 1)
            }
        } else {
            Request::Answer(12, 1)
        }
    }

    fn read_request(&self, a0: u64) -> Request
        ensures value { call_in self.now result ≡ read_call (view_bytes self.now) (view_room self.now) a0 (Some (view_register self.now 18)) }
        ensures served { IsServed self.now result }
    {
        let (a1, n) = (self.registers[17], self.registers[18]);
        if a0 != 0 {
            Request::Answer(9, 1)
        } else if n == 0 {
            Request::Answer(0, 0)
        } else if self.memory.is_mapped(a1, n) {
            Request::Take(n)
        } else {
            Request::Answer(14, 1)
        }
    }

    fn put_request(&self, descriptor: Descriptor) -> Request
        ensures value { call_in self.now result ≡ write_call (view_bytes self.now) (view_room self.now) (descriptor_number descriptor) (Some (view_register self.now 18)) }
        ensures served { IsServed self.now result }
    {
        let (a1, n) = (self.registers[17], self.registers[18]);
        if n == 0 {
            Request::Answer(0, 0)
        } else if self.memory.is_mapped(a1, n) {
            Request::Put(descriptor, n)
        } else {
            Request::Answer(14, 1)
        }
    }

    fn write_request(&self, a0: u64) -> Request
        ensures value { call_in self.now result ≡ write_call (view_bytes self.now) (view_room self.now) a0 (Some (view_register self.now 18)) }
        ensures served { IsServed self.now result }
    {
        if a0 == 1 {
            self.put_request(Descriptor::Out)
        } else if a0 == 2 {
            self.put_request(Descriptor::Err)
        } else {
            Request::Answer(9, 1)
        }
    }

    /// What the system call asks for, by the registers that it uses.
    fn request(&self) -> Request
        ensures value { call_in self.now result ≡ view_call self.now }
        ensures served { IsServed self.now result }
    {
        let (v0, a0) = (self.registers[0], self.registers[16]);
        if v0 == 17 {
            self.heap_request(a0)
        } else if v0 == 1 {
            Request::Exit((a0 % 256) as u8)
        } else if v0 == 3 {
            self.read_request(a0)
        } else if v0 == 4 {
            self.write_request(a0)
        } else {
            Request::Answer(78, 1)
        }
    }

    /// Sets v0 and a3, and the next instruction follows.
    fn answer(&mut self, v0: u64, a3: u64)
        requires { self.old.pc < 2 ^ 63 }
        ensures state { (input out err : List ℕ) → state_of self.new input out err ≡ answers (state_of self.old input out err) v0 a3 }
        ensures code { self.new.code ≡ self.old.code }
        ensures size { length self.new.memory.bytes ≡ length self.old.memory.bytes }
        ensures end { self.new.end ≡ self.old.end }
    {
        self.set(0, v0);
        self.set(19, a3);
        self.advance();
    }

    fn set_heap(&mut self, size: u64)
        requires { size ≤ heap_limit }
        ensures state { (input out err : List ℕ) → state_of self.new input out err
            ≡ record (state_of self.old input out err) { heap_size = size; memory = resized_memory (state_of self.old input out err) size } }
        ensures pc { self.new.pc ≡ self.old.pc }
        ensures code { self.new.code ≡ self.old.code }
        ensures size { length self.new.memory.bytes ≡ length self.old.memory.bytes }
        ensures end { self.new.end ≡ self.old.end }
    {
        self.memory.resize(size);
    }

    fn resize(&mut self, size: u64)
        requires place { self.old.pc < 2 ^ 63 }
        requires limit { size ≤ heap_limit }
        ensures state { (input out err : List ℕ) → state_of self.new input out err ≡ calls (state_of self.old input out err) (Resizes size) 0 }
        ensures code { self.new.code ≡ self.old.code }
        ensures size { length self.new.memory.bytes ≡ length self.old.memory.bytes }
        ensures end { self.new.end ≡ self.old.end }
    {
        self.set_heap(size);
        self.answer(0, 0);
    }

    /// Ends the run with a status.
    fn exit(&mut self, status: u8)
        ensures { self.new ≡ record self.old { end = Some (Ending.Exited status) } }
    {
        self.end = Some(Ending::Exited(status));
    }

    /// Takes bytes of the input to a1: whether no read failed.
    fn take<I: Source>(&mut self, input: &mut I, count: u64) -> bool
        requires place { self.old.pc < 2 ^ 63 }
        requires mapped { IsTrue (is_mapped (length self.old.memory.bytes) self.old.memory.heap_size (view_register self.old 17) count) }
        requires fits { view_register self.old 17 + count < 2 ^ 63 }
        ensures taken { IsTrue result → (s : NumState) (told_out told_err : Told) → IsState self.old (I.left input.old) told_out told_err s
            → IsState self.new (I.left input.new) told_out told_err (calls s (Takes count) (view_register self.old 17)) }
        ensures failed { result ≡ false → (s : NumState) (told_out told_err : Told) → IsState self.old (I.left input.old) told_out told_err s
            → FailsToTake (Takes count) (view_register self.old 17) s self.new (I.left input.new) told_out told_err }
        ensures rose { result ≡ false → Rose (I.faults input.old) (I.faults input.new) }
        ensures kept { IsTrue result → I.faults input.new ≡ I.faults input.old }
        ensures code { self.new.code ≡ self.old.code }
        ensures size { length self.new.memory.bytes ≡ length self.old.memory.bytes }
        ensures end { self.new.end ≡ self.old.end }
    {
        let a1 = self.registers[17];
        match take_all(input, &mut self.memory, a1, count) {
            Ok(taken) => {
                self.answer(taken, 0);
                true
            }
            Err(_) => false,
        }
    }

    /// Puts the bytes at a1 into a sink: whether no put failed.
    fn put<S: Sink>(&mut self, sink: &mut S, n: u64) -> bool
        requires place { self.old.pc < 2 ^ 63 }
        requires mapped { IsTrue (is_mapped (length self.old.memory.bytes) self.old.memory.heap_size (view_register self.old 17) n) }
        ensures appends { (old : List ℕ) → S.written sink.old ≡ Some old
            → Puts old (S.written sink.new) (bytes_from (memory_of self.old.memory) (view_register self.old 17) n) result }
        ensures state { IsTrue result → (input out err : List ℕ) → state_of self.new input out err ≡ answers (state_of self.old input out err) n 0 }
        ensures same { result ≡ false → self.new ≡ self.old }
        ensures rose { result ≡ false → Rose (S.faults sink.old) (S.faults sink.new) }
        ensures kept { IsTrue result → S.faults sink.new ≡ S.faults sink.old }
        ensures code { self.new.code ≡ self.old.code }
        ensures size { length self.new.memory.bytes ≡ length self.old.memory.bytes }
        ensures end { self.new.end ≡ self.old.end }
    {
        let a1 = self.registers[17];
        let Some(bytes) = self.memory.bytes_at(a1, n) else {
            unreachable!()
        };
        let put = put_all(sink, bytes);
        match put {
            Ok(()) => {
                self.answer(n, 0);
                true
            }
            Err(_) => false,
        }
    }

    /// What a step answers that did not fail.
    fn answered(&self) -> Step
        ensures answer { IsAnswer result self.now.end }
        ensures no_read_fault { result ≢ Step.ReadFault }
        ensures no_write_fault { result ≢ Step.WriteFault }
    {
        match self.end {
            None => Step::Went,
            Some(Ending::Exited(status)) => Step::Exit(status),
            Some(Ending::Trapped(kind, at)) => Step::Trap { kind, at },
        }
    }

    /// Does a system call.
    fn call<I: Source, O: Sink, E: Sink>(&mut self, input: &mut I, out: &mut O, err: &mut E) -> Step
        requires running { self.old.end ≡ None }
        requires place { self.old.pc < 2 ^ 63 }
        ensures calls { (s : NumState) (out_before err_before : Option (List ℕ))
            → IsState self.old (I.left input.old) (out_before, O.written out.old) (err_before, E.written err.old) s
            → CallsTo self.old result s self.new (I.left input.new) (out_before, O.written out.new) (err_before, E.written err.new) }
        ensures answer { IsAnswer result self.new.end }
        ensures read_fault { result ≡ Step.ReadFault → IsTaking (view_call self.old) × Rose (I.faults input.old) (I.faults input.new) }
        ensures write_fault { result ≡ Step.WriteFault → (IsPutting 1 (view_call self.old) × Rose (O.faults out.old) (O.faults out.new))
            ⊎ (IsPutting 2 (view_call self.old) × Rose (E.faults err.old) (E.faults err.new)) }
        ensures no_read_fault { result ≢ Step.ReadFault → I.faults input.new ≡ I.faults input.old }
        ensures no_write_fault { result ≢ Step.WriteFault → (O.faults out.new ≡ O.faults out.old) × (E.faults err.new ≡ E.faults err.old) }
        ensures code { self.new.code ≡ self.old.code }
        ensures size { length self.new.memory.bytes ≡ length self.old.memory.bytes }
    {
        match self.request() {
            Request::Exit(status) => {
                self.exit(status);
                Step::Exit(status)
            }
            Request::Answer(v0, a3) => {
                self.answer(v0, a3);
                Step::Went
            }
            Request::Put(Descriptor::Out, n) => {
                if self.put(out, n) {
                    Step::Went
                } else {
                    Step::WriteFault
                }
            }
            Request::Put(Descriptor::Err, n) => {
                if self.put(err, n) {
                    Step::Went
                } else {
                    Step::WriteFault
                }
            }
            Request::Take(n) => {
                if self.take(input, n) {
                    Step::Went
                } else {
                    Step::ReadFault
                }
            }
            Request::HeapEnd => {
                let size = self.memory.heap_size();
                self.answer(HEAP_BASE + size, 0);
                Step::Went
            }
            Request::Resize(size) => {
                self.resize(size);
                Step::Went
            }
        }
    }

    /// Takes one step.
    ///
    /// From a state of the definition it comes to the definition's next state, which is the one answered. It answers a
    /// fault only at a system call that takes or puts bytes, where the count of that source or sink rose; then the state
    /// is as before, but that bytes already taken stand at the front of the range, and a front of the bytes is written.
    /// It may then be called again. Once the run has ended, each step answers the same and changes nothing.
    pub fn step<I: Source, O: Sink, E: Sink>(
        &mut self,
        input: &mut I,
        out: &mut O,
        err: &mut E,
    ) -> Step
        ensures steps { (i : Image) (s : NumState) (out_before err_before : Option (List ℕ)) → HasImage i self.old
            → IsState self.old (I.left input.old) (out_before, O.written out.old) (err_before, E.written err.old) s
            → StepsTo i result s self.new (I.left input.new) (out_before, O.written out.new) (err_before, E.written err.new) }
        ensures image { (i : Image) → HasImage i self.old → HasImage i self.new }
        ensures answer { IsAnswer result self.new.end }
        ensures ended { IsSome self.old.end → (self.new ≡ self.old) × (input.new ≡ input.old) × (out.new ≡ out.old) × (err.new ≡ err.old) }

        ensures read_fault { result ≡ Step.ReadFault → Rose (I.faults input.old) (I.faults input.new) × IsTaking (view_call self.old) × IsCallNext self.old }
        ensures write_fault { result ≡ Step.WriteFault → IsCallNext self.old
            × ((IsPutting 1 (view_call self.old) × Rose (O.faults out.old) (O.faults out.new))
            ⊎ (IsPutting 2 (view_call self.old) × Rose (E.faults err.old) (E.faults err.new))) }
        ensures no_read_fault { result ≢ Step.ReadFault → I.faults input.new ≡ I.faults input.old }
        ensures no_write_fault { result ≢ Step.WriteFault → (O.faults out.new ≡ O.faults out.old) × (E.faults err.new ≡ E.faults err.old) }
    {
        if self.plain_step() {
            self.call(input, out, err)
        } else {
            self.answered()
        }
    }

    /// Takes steps until the run has ended, so many are taken, or one of them fails.
    ///
    /// `Went` says that all are taken and the run has not ended. From a state of the definition the machine comes to the
    /// definition's state after that many steps, in which an ended run stays; or, after a fault, to what the step that
    /// failed leaves, and those before it did not fail.
    pub fn run<I: Source, O: Sink, E: Sink>(
        &mut self,
        steps: u64,
        input: &mut I,
        out: &mut O,
        err: &mut E,
    ) -> Step
        ensures runs { (i : Image) (s : NumState) (out_before err_before : Option (List ℕ)) → HasImage i self.old
            → IsState self.old (I.left input.old) (out_before, O.written out.old) (err_before, E.written err.old) s
            → RunsTo i steps result s self.new (I.left input.new) (out_before, O.written out.new) (err_before, E.written err.new) }
        ensures image { (i : Image) → HasImage i self.old → HasImage i self.new }
        ensures answer { IsAnswer result self.new.end }
        ensures read_fault { result ≡ Step.ReadFault → Rose (I.faults input.old) (I.faults input.new) }
        ensures write_fault { result ≡ Step.WriteFault → Rose (O.faults out.old) (O.faults out.new) ⊎ Rose (E.faults err.old) (E.faults err.new) }
        ensures no_read_fault { result ≢ Step.ReadFault → I.faults input.new ≡ I.faults input.old }
        ensures no_write_fault { result ≢ Step.WriteFault → (O.faults out.new ≡ O.faults out.old) × (E.faults err.new ≡ E.faults err.old) }
    {
        for turn in 0..steps {
            match self.step(input, out, err) {
                Step::Went => {}
                Step::Exit(status) => return Step::Exit(status),
                Step::Trap { kind, at } => return Step::Trap { kind, at },
                Step::ReadFault => return Step::ReadFault,
                Step::WriteFault => return Step::WriteFault,
            }
        }
        self.answered()
    }
}
