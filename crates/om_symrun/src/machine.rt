// The symbolic machine and its steps.
ghost use Rattle.std.specs.Prelude.{Bool, ◌⊎◌, ◌≡◌, ◌≢◌, ◌≤◌, ◌<◌, ◌+◌, ◌^◌, ◌++◌, ◌&&◌, ◌==◌, ℕ, List, [], IsTrue, IsSome, IfOk, OnOk, OnErr, Option, Some, None, is_some, option_map, slice_index_or, true, false};
ghost use Rattle.om_io.specs.Causes.{Rose};
ghost use Rattle.om_isa.specs.Registers.{access_of};
ghost use Rattle.om_isa.specs.SystemCall.{Takes, heap_limit};
ghost use Rattle.om_isa.specs.declared.instr.Instr.TheVariants as instr;
ghost use Rattle.om_prog.specs.Act.{Plain, Lit, GpHi, GpLo, To};
ghost use Rattle.om_prog.specs.Runs.{sym_start, step_if};
ghost use Rattle.om_prog.specs.Script.{program_script, program_fetch, act_of};
ghost use Rattle.om_prog.specs.Step as def;
ghost use Rattle.om_prog.specs.Step.{SymState, write_reg, after, answers, resizes, resized_cells, writes_cells};
ghost use Rattle.om_prog.specs.View.{item_at};
ghost use Rattle.om_prog.specs.Cells.{cells_of};
ghost use Rattle.om_symrun.specs.Actions.{effect_in, spot_in, IsSpot, IsInside, IsDoable, holds};
ghost use Rattle.om_symrun.specs.CellsIn.{size_bytes};
ghost use Rattle.om_symrun.specs.Calls.{IsState, FailsToTake, CallsTo, IsAnswer, IsTaking, IsPutting, IsSpan, span_bytes};
ghost use Rattle.om_symrun.specs.Memory.{memory_size, heap_size};
ghost use Rattle.om_symrun.specs.Streams.{Puts, Told};
ghost use Rattle.om_symrun.specs.Steps.{StepsTo, RunsTo, IsCallNext};
ghost use Rattle.om_symrun.specs.View.{state_of, end_of, register_in, view_script, view_state, view_register, view_effect, view_call, view_step};

mod asking;

use crate::actions::{
    Action, Spot, accessed, can_hold, extended, is_code, is_gp, is_half, moved, next_place, scaled,
    size_of_op, spot_of_number, spot_of_pointer, value_of,
};
use crate::memory::Memory;
use crate::requests::{Descriptor, Request, Span};
use crate::starting::{first_memory, first_registers, set_register};
use crate::streams::{put_all, take_all};
use om_alpha::{AluOp, Cond, Size, TrapKind, alu, overflows};
use om_io::{NoMemory, Sink, Source};
use om_isa::{Access, BrOp, Instr, MemOp, Opnd, Reg, access_kind};
use om_prog::{Item, Program, Role};
use om_value::{Place, Region, Target, Value, lift, lift_cond};
use std::alloc::Global;
use std::marker::Model;

/// What a step answers.
#[derive(Clone, Copy, PartialEq, Eq, Debug)]
pub enum SymStep {
    /// The run goes on.
    Went,
    /// The run has ended with a status.
    Exit(u8),
    /// The run has ended by a trap of the word at a place.
    Trap {
        /// What trapped.
        kind: TrapKind,
        /// The place of the word.
        at: Place,
    },
    /// The run has ended at a place, where the next step would show an address.
    Observes(Place),
    /// A read of the input failed.
    ReadFault,
    /// A put of the output failed.
    WriteFault,
    /// Memory ran out, and nothing has changed.
    NoMemory,
}

/// How a run has ended.
#[derive(Clone, Copy, PartialEq, Eq, Debug)]
pub enum Ending {
    /// With a status.
    Exited(u8),
    /// By a trap of the word at a place.
    Trapped(TrapKind, Place),
    /// At a place where the next step would show an address.
    Observed(Place),
}

/// A run of a program: the registers, the place of the next word, the memory, and how the run has ended, if it has.
#[derive(Drop)]
pub struct SymRun<'a> {
    program: &'a Program,
    registers: [Value; 32],
    place: Place,
    memory: Memory,
    end: Option<Ending>,
}

impl<'a> Model for SymRun<'a> {
    ghost use Rattle.om_symrun.specs.Memory.{IsMemoryOf};
    ghost use Rattle.om_symrun.specs.View.{View};

    ghost Value = { View };

    ghost view = { λ m. record { program = m.program.now; registers = m.registers; place = m.place; memory = m.memory; end = m.end } };

    ghost invariant = { λ m. IsMemoryOf m.program.now m.memory };
}

impl SymRun<'_> {
    /// The start of a run of a program.
    pub fn new(alloc: Global, p: &Program) -> Result<SymRun<'_>, NoMemory>
        ensures program { IfOk result (λ m. m.program ≡ p.now) }
        ensures start { IfOk result (λ m. (input : List ℕ) → state_of m input [] [] ≡ sym_start (program_script p.now) input) }
    {
        let memory = first_memory(alloc, p)?;
        Ok(SymRun {
            program: p,
            registers: first_registers(p.entry()),
            place: p.entry(),
            memory,
            end: None,
        })
    }

    /// The place of the next word.
    pub fn place(&self) -> Place
        ensures { result ≡ self.now.place }
    {
        self.place
    }

    /// Whether the run has ended.
    pub fn ended(&self) -> bool
        ensures { result ≡ is_some self.now.end }
    {
        self.end.is_some()
    }

    fn register(&self, r: Reg) -> Value
        ensures { result ≡ view_register self.now r }
    {
        if r.num() == 31 {
            Value::Num(0)
        } else {
            self.registers[r.num() as usize]
        }
    }

    fn operand(&self, rb: Opnd) -> Value
        ensures { result ≡ def.operand (view_script self.now) (view_state self.now) rb }
    {
        match rb {
            Opnd::R(r) => self.register(r),
            Opnd::Lit(n) => Value::Num(u64::from(n)),
        }
    }

    // How many bytes the region has now that a value points into.
    fn region_size(&self, v: Value) -> u64
        ensures { result ≡ def.region_size (view_script self.now) (view_state self.now) v }
    {
        match v {
            Value::Ptr { region, .. } => self.memory.size(region),
            _ => 0,
        }
    }

    // Where an access at a value goes.
    fn spot(&self, op: MemOp, v: Value) -> Spot
        ensures value { spot_in result ≡ def.spot_of (def.size_now (view_script self.now) (view_state self.now)) (def.access_size op) v }
        ensures inside { IsSpot self.now.memory (def.access_size op) result }
    {
        match v {
            Value::Num(n) => spot_of_number(size_of_op(op), n),
            Value::Ptr { region, off } => {
                spot_of_pointer(size_of_op(op), region, off, self.memory.size(region))
            }
            _ => Spot::Hidden,
        }
    }

    fn load_action(&self, op: MemOp, ra: Reg, v: Value) -> Action
        ensures value { effect_in result ≡ def.load (view_script self.now) (view_state self.now) op ra v }
        ensures doable { IsDoable self.now.memory result }
    {
        match self.spot(op, v) {
            Spot::Inside(region, off) => match self.memory.load(region, off, size_of_op(op)) {
                Some(w) => Action::Set(ra.num(), extended(op, w)),
                None => Action::Observe,
            },
            Spot::Refused(kind) => Action::Stop(kind),
            Spot::Hidden => Action::Observe,
        }
    }

    fn store_action(&self, op: MemOp, w: Value, v: Value) -> Action
        ensures value { effect_in result ≡ def.store (view_script self.now) (view_state self.now) op w v }
        ensures doable { IsDoable self.now.memory result }
    {
        match self.spot(op, v) {
            Spot::Inside(region, off) => {
                if can_hold(size_of_op(op), w) {
                    Action::Store(region, off, size_of_op(op), w)
                } else {
                    Action::Observe
                }
            }
            Spot::Refused(kind) => Action::Stop(kind),
            Spot::Hidden => Action::Observe,
        }
    }

    fn address_action(&self, op: MemOp, ra: Reg, base: Value, disp: i16) -> Action
        ensures value { effect_in result ≡ def.memory_effect (view_script self.now) (view_state self.now) Access.Address op ra base disp }
        ensures doable { IsDoable self.now.memory result }
    {
        match moved(base, scaled(op, disp)) {
            Some(v) => Action::Set(ra.num(), v),
            None => Action::Observe,
        }
    }

    fn memory_action(&self, op: MemOp, ra: Reg, base: Value, disp: i16) -> Action
        ensures value { effect_in result ≡ def.memory_effect (view_script self.now) (view_state self.now) (access_of op) op ra base disp }
        ensures doable { IsDoable self.now.memory result }
    {
        match access_kind(op) {
            Access::Address => self.address_action(op, ra, base, disp),
            Access::Load => {
                if ra.num() == 31 {
                    return Action::Nothing;
                }
                match moved(base, i64::from(disp)) {
                    Some(v) => self.load_action(op, ra, accessed(op, v)),
                    None => Action::Observe,
                }
            }
            Access::Store => match moved(base, i64::from(disp)) {
                Some(v) => self.store_action(op, self.register(ra), accessed(op, v)),
                None => Action::Observe,
            },
        }
    }

    fn overflows_on(&self, op: AluOp, a: Value, b: Value) -> bool
        ensures { result ≡ def.overflows_on (view_script self.now) (view_state self.now) op a b }
    {
        match (a, b) {
            (Value::Num(m), Value::Num(n)) => overflows(op, m, n),
            _ => false,
        }
    }

    // An operation on two numbers.
    #[tactic(auto, unfolding(om_value::specs::Lift::lifted, om_value::specs::Lift::on_numbers))]
    fn number_action(&self, op: AluOp, m: u64, n: u64, rc: Reg) -> Action
        ensures value { effect_in result ≡ def.alu_effect (view_script self.now) (view_state self.now) op (Value.Num m) (Value.Num n) rc }
        ensures doable { IsDoable self.now.memory result }
    {
        if overflows(op, m, n) {
            Action::Stop(TrapKind::Overflow)
        } else {
            Action::Set(rc.num(), Value::Num(alu(op, m, n)))
        }
    }

    fn alu_action(&self, op: AluOp, a: Value, b: Value, rc: Reg) -> Action
        ensures value { effect_in result ≡ def.alu_effect (view_script self.now) (view_state self.now) op a b rc }
        ensures doable { IsDoable self.now.memory result }
    {
        if let (Value::Num(m), Value::Num(n)) = (a, b) {
            return self.number_action(op, m, n, rc);
        }
        if self.overflows_on(op, a, b) {
            return Action::Stop(TrapKind::Overflow);
        }
        match lift(op, a, self.region_size(a), b, self.region_size(b)) {
            Some(v) => Action::Set(rc.num(), v),
            None => Action::Observe,
        }
    }

    fn jump_action(&self, ra: Reg, base: Value) -> Action
        ensures value { effect_in result ≡ def.jump_effect (view_script self.now) (view_state self.now) ra base }
        ensures doable { IsDoable self.now.memory result }
    {
        match base {
            Value::Code(q) => {
                if self.program.item(q).is_some() {
                    Action::Jump(Some(ra.num()), q)
                } else {
                    Action::Observe
                }
            }
            Value::Num(n) => {
                if n / 4 * 4 < 0x1_0000 {
                    Action::Stop(TrapKind::Access)
                } else {
                    Action::Observe
                }
            }
            _ => Action::Observe,
        }
    }

    fn branch_action(&self, op: BrOp, ra: Reg, to: Place) -> Action
        ensures value { effect_in result ≡ def.branch_effect (view_script self.now) (view_state self.now) op ra to }
        ensures doable { IsDoable self.now.memory result }
    {
        match op {
            BrOp::Br => Action::Jump(Some(ra.num()), to),
            BrOp::Bsr => Action::Jump(Some(ra.num()), to),
            BrOp::If(c) => {
                let v = self.register(ra);
                match lift_cond(c, v, self.region_size(v)) {
                    Some(true) => Action::Jump(None, to),
                    Some(false) => Action::Nothing,
                    None => Action::Observe,
                }
            }
        }
    }

    fn move_action(&self, c: Cond, ra: Reg, rb: Opnd, rc: Reg) -> Action
        ensures value { effect_in result ≡ def.plain_effect (view_script self.now) (view_state self.now) (instr.Cmov c ra rb rc) }
        ensures doable { IsDoable self.now.memory result }
    {
        let v = self.register(ra);
        match lift_cond(c, v, self.region_size(v)) {
            Some(true) => Action::Set(rc.num(), self.operand(rb)),
            Some(false) => Action::Nothing,
            None => Action::Observe,
        }
    }

    // What an instruction does that is no system call.
    fn plain_action(&self, i: Instr) -> Action
        requires { i ≢ instr.Callsys }
        ensures value { effect_in result ≡ def.plain_effect (view_script self.now) (view_state self.now) i }
        ensures doable { IsDoable self.now.memory result }
    {
        match i {
            Instr::Mem { op, ra, rb, disp } => self.memory_action(op, ra, self.register(rb), disp),
            Instr::Jump { ra, rb, .. } => self.jump_action(ra, self.register(rb)),
            Instr::Branch { .. } => Action::Observe,
            Instr::Alu { op, ra, rb, rc } => {
                self.alu_action(op, self.register(ra), self.operand(rb), rc)
            }
            Instr::Cmov { cond, ra, rb, rc } => self.move_action(cond, ra, rb, rc),
            Instr::Misc { .. } => Action::Nothing,
            Instr::Fnop => Action::Nothing,
            Instr::Halt => Action::Stop(TrapKind::Halt),
            Instr::Callsys => unreachable!(),
        }
    }

    fn literal_action(&self, ra: Reg, rb: Reg, t: Target) -> Action
        ensures value { effect_in result ≡ view_effect self.now (Lit ra rb t) }
        ensures doable { IsDoable self.now.memory result }
    {
        if ra.num() == 31 {
            Action::Nothing
        } else if is_gp(self.register(rb), self.place.obj) {
            Action::Set(ra.num(), value_of(t))
        } else {
            Action::Observe
        }
    }

    fn high_action(&self, ra: Reg, rb: Reg, base: Place) -> Action
        ensures value { effect_in result ≡ view_effect self.now (GpHi ra rb base) }
        ensures doable { IsDoable self.now.memory result }
    {
        if is_code(self.register(rb), base) {
            Action::Set(ra.num(), Value::Half(self.place))
        } else {
            Action::Observe
        }
    }

    fn low_action(&self, ra: Reg, rb: Reg, hi: Place) -> Action
        ensures value { effect_in result ≡ view_effect self.now (GpLo ra rb hi) }
        ensures doable { IsDoable self.now.memory result }
    {
        if is_half(self.register(rb), hi) {
            Action::Set(ra.num(), Value::Gp(self.place.obj))
        } else {
            Action::Observe
        }
    }

    // What a word does that is no system call.
    fn action_of(&self, role: Role, i: Instr) -> Action
        requires { act_of role i ≢ Plain instr.Callsys }
        ensures value { effect_in result ≡ view_effect self.now (act_of role i) }
        ensures doable { IsDoable self.now.memory result }
    {
        match (role, i) {
            (Role::Plain, _) => self.plain_action(i),
            (Role::Lit(t), Instr::Mem { ra, rb, .. }) => self.literal_action(ra, rb, t),
            (Role::GpHi { base }, Instr::Mem { ra, rb, .. }) => self.high_action(ra, rb, base),
            (Role::GpLo { hi }, Instr::Mem { ra, rb, .. }) => self.low_action(ra, rb, hi),
            (Role::To(q), Instr::Branch { op, ra, .. }) => self.branch_action(op, ra, q),
            _ => Action::Observe,
        }
    }

    fn fetch(&self) -> Option<Item>
        ensures value { result ≡ item_at self.now.program self.now.place }
        ensures range { IsSome result → self.now.place.off + 4 < 2 ^ 32 }
    {
        self.program.item(self.place)
    }

    fn set(&mut self, r: u8, v: Value)
        requires { r < 32 }
        ensures same { self.new ≡ record self.old { registers = self.new.registers } }
        ensures registers { (x : ℕ) → register_in self.new.registers x ≡ write_reg (register_in self.old.registers) r v x }
    {
        set_register(&mut self.registers, r, v);
    }

    fn advance(&mut self)
        requires { self.old.place.off + 4 < 2 ^ 32 }
        ensures { self.new ≡ record self.old { place = def.next_place self.old.place } }
    {
        self.place = next_place(self.place);
    }

    fn stop(&mut self, kind: TrapKind)
        ensures { self.new ≡ record self.old { end = Some (Ending.Trapped kind self.old.place) } }
    {
        self.end = Some(Ending::Trapped(kind, self.place));
    }

    fn observe(&mut self)
        ensures { self.new ≡ record self.old { end = Some (Ending.Observed self.old.place) } }
    {
        self.end = Some(Ending::Observed(self.place));
    }

    // Writes a value. Where memory runs out, nothing has changed.
    fn store(&mut self, region: Region, at: u64, size: Size, v: Value) -> Result<(), NoMemory>
        requires inside { IsInside self.old.memory region at (size_bytes size) }
        requires holds { holds size v ≡ true }
        ensures state { OnOk result ((input out err : List ℕ) → state_of self.new input out err
            ≡ record (state_of self.old input out err) { cells = writes_cells (state_of self.old input out err) self.old.place (region, at, cells_of (size_bytes size) v) }) }
        ensures same { OnErr result ((input out err : List ℕ) → state_of self.new input out err ≡ state_of self.old input out err) }
        ensures rest { self.new ≡ record self.old { memory = self.new.memory } }
    {
        let stored = self.memory.store(region, at, size, v);
        stored
    }

    // Does an action. Where memory runs out, nothing has changed.
    fn apply(&mut self, action: Action) -> Result<(), NoMemory>
        requires doable { IsDoable self.old.memory action }
        requires place { self.old.place.off + 4 < 2 ^ 32 }
        ensures state { OnOk result ((input out err : List ℕ) → state_of self.new input out err ≡ after (state_of self.old input out err) self.old.place (effect_in action)) }
        ensures same { OnErr result ((input out err : List ℕ) → state_of self.new input out err ≡ state_of self.old input out err) }
        ensures end_kept { OnErr result (self.new.end ≡ self.old.end) }
        ensures program { self.new.program ≡ self.old.program }
    {
        match action {
            Action::Nothing => self.advance(),
            Action::Set(r, v) => {
                self.set(r, v);
                self.advance();
            }
            Action::Store(region, at, size, v) => {
                if let Err(NoMemory) = self.store(region, at, size, v) {
                    return Err(NoMemory);
                }
                self.advance();
            }
            Action::Jump(None, to) => self.place = to,
            Action::Jump(Some(r), to) => {
                self.set(r, Value::Code(next_place(self.place)));
                self.place = to;
            }
            Action::Stop(kind) => self.stop(kind),
            Action::Observe => self.observe(),
        }
        Ok(())
    }

    /// Does what the word does, but for a system call: whether it is one.
    fn plain_step(&mut self) -> Result<bool, NoMemory>
        ensures state { result ≡ Ok false → (input out err : List ℕ) → state_of self.new input out err
            ≡ view_step self.old (state_of self.old input out err) (option_map end_of self.old.end) }
        ensures call { result ≡ Ok true → self.new ≡ self.old }
        ensures callsys { result ≡ Ok true → IsCallNext self.old }
        ensures place { result ≡ Ok true → self.old.place.off + 4 < 2 ^ 32 }
        ensures same { OnErr result ((input out err : List ℕ) → state_of self.new input out err ≡ state_of self.old input out err) }
        ensures end_kept { OnErr result (self.new.end ≡ self.old.end) }
        ensures running { OnErr result (self.old.end ≡ None) }
        ensures ended { IsSome self.old.end → (self.new ≡ self.old) × (result ≡ Ok false) }
        ensures program { self.new.program ≡ self.old.program }
    {
        if self.end.is_some() {
            return Ok(false);
        }
        let Some(item) = self.fetch() else {
            self.observe();
            return Ok(false);
        };
        if let (Role::Plain, Instr::Callsys) = (item.role, item.instr) {
            return Ok(true);
        }
        let action = self.action_of(item.role, item.instr);
        match self.apply(action) {
            Ok(()) => Ok(false),
            Err(NoMemory) => Err(NoMemory),
        }
    }

    /// Sets v0 and a3, and the next word follows.
    fn answer(&mut self, v0: Value, a3: u64)
        requires { self.old.place.off + 4 < 2 ^ 32 }
        ensures state { (input out err : List ℕ) → state_of self.new input out err ≡ answers (state_of self.old input out err) self.old.place v0 a3 }
        ensures end { self.new.end ≡ self.old.end }
        ensures program { self.new.program ≡ self.old.program }
    {
        self.set(0, v0);
        self.set(19, Value::Num(a3));
        self.advance();
    }

    // Gives the heap a size.
    fn set_heap(&mut self, size: u64) -> Result<(), NoMemory>
        requires { size ≤ heap_limit }
        ensures state { OnOk result ((input out err : List ℕ) → state_of self.new input out err
            ≡ record (state_of self.old input out err) { heap = size; cells = resized_cells (state_of self.old input out err) self.old.place size }) }
        ensures same { OnErr result ((input out err : List ℕ) → state_of self.new input out err ≡ state_of self.old input out err) }
        ensures rest { self.new ≡ record self.old { memory = self.new.memory } }
    {
        let resized = self.memory.resize_heap(size);
        resized
    }

    // Gives the heap a size, and the next word follows. Where memory runs out, nothing has changed.
    fn resize(&mut self, size: u64) -> Result<(), NoMemory>
        requires place { self.old.place.off + 4 < 2 ^ 32 }
        requires limit { size ≤ heap_limit }
        ensures state { OnOk result ((input out err : List ℕ) → state_of self.new input out err ≡ resizes (state_of self.old input out err) self.old.place size) }
        ensures same { OnErr result ((input out err : List ℕ) → state_of self.new input out err ≡ state_of self.old input out err) }
        ensures end { self.new.end ≡ self.old.end }
        ensures program { self.new.program ≡ self.old.program }
    {
        if let Err(NoMemory) = self.set_heap(size) {
            return Err(NoMemory);
        }
        self.answer(Value::Num(0), 0);
        Ok(())
    }

    /// Ends the run with a status.
    fn exit(&mut self, status: u8) -> SymStep
        ensures answer { result ≡ SymStep.Exit status }
        ensures end { self.new ≡ record self.old { end = Some (Ending.Exited status) } }
    {
        self.end = Some(Ending::Exited(status));
        SymStep::Exit(status)
    }

    /// Ends the run at its place, where the next step would show an address.
    fn end_observed(&mut self) -> SymStep
        ensures answer { result ≡ SymStep.Observes self.old.place }
        ensures end { self.new ≡ record self.old { end = Some (Ending.Observed self.old.place) } }
    {
        let at = self.place;
        self.observe();
        SymStep::Observes(at)
    }

    /// Answers where the heap ends.
    fn answer_heap_end(&mut self)
        requires { self.old.place.off + 4 < 2 ^ 32 }
        ensures state { (input out err : List ℕ) → state_of self.new input out err
            ≡ answers (state_of self.old input out err) self.old.place (Value.Ptr Region.Heap (heap_size self.old.memory)) 0 }
        ensures end { self.new.end ≡ self.old.end }
        ensures program { self.new.program ≡ self.old.program }
    {
        let off = self.memory.heap_size();
        let region = Region::Heap;
        self.answer(Value::Ptr { region, off }, 0);
    }

    /// Takes bytes of the input to a range: whether no read failed.
    fn take<I: Source>(&mut self, input: &mut I, span: Span) -> bool
        requires place { self.old.place.off + 4 < 2 ^ 32 }
        requires span { IsSpan self.old span }
        ensures taken { IsTrue result → (s : SymState) (told_out told_err : Told) → IsState self.old (I.left input.old) told_out told_err s
            → IsState self.new (I.left input.new) told_out told_err (def.calls s s.place (Takes span.count) (view_register self.old 17)) }
        ensures failed { result ≡ false → (s : SymState) (told_out told_err : Told) → IsState self.old (I.left input.old) told_out told_err s
            → FailsToTake (Takes span.count) (view_register self.old 17) s self.new (I.left input.new) told_out told_err }
        ensures rose { result ≡ false → Rose (I.faults input.old) (I.faults input.new) }
        ensures kept { IsTrue result → I.faults input.new ≡ I.faults input.old }
        ensures end { self.new.end ≡ self.old.end }
        ensures program { self.new.program ≡ self.old.program }
    {
        match take_all(input, &mut self.memory, span.region, span.at, span.count) {
            Ok(taken) => {
                self.answer(Value::Num(taken), 0);
                true
            }
            Err(_) => false,
        }
    }

    /// Puts the bytes of a range into a sink: whether no put failed.
    fn put<S: Sink>(&mut self, sink: &mut S, span: Span) -> bool
        requires place { self.old.place.off + 4 < 2 ^ 32 }
        requires span { IsSpan self.old span }
        ensures appends { (old : List ℕ) → S.written sink.old ≡ Some old → Puts old (S.written sink.new) (span_bytes self.old.memory span) result }
        ensures state { IsTrue result → (input out err : List ℕ) → state_of self.new input out err ≡ answers (state_of self.old input out err) self.old.place (Value.Num span.count) 0 }
        ensures same { result ≡ false → self.new ≡ self.old }
        ensures rose { result ≡ false → Rose (S.faults sink.old) (S.faults sink.new) }
        ensures kept { IsTrue result → S.faults sink.new ≡ S.faults sink.old }
        ensures end { self.new.end ≡ self.old.end }
        ensures program { self.new.program ≡ self.old.program }
    {
        let put = put_all(sink, self.memory.bytes(span.region, span.at, span.count));
        match put {
            Ok(()) => {
                self.answer(Value::Num(span.count), 0);
                true
            }
            Err(_) => false,
        }
    }

    /// What a step answers that did not fail.
    fn answered(&self) -> SymStep
        ensures answer { IsAnswer result self.now.end }
        ensures no_read_fault { result ≢ SymStep.ReadFault }
        ensures no_write_fault { result ≢ SymStep.WriteFault }
        ensures no_want { result ≢ SymStep.NoMemory }
    {
        match self.end {
            None => SymStep::Went,
            Some(Ending::Exited(status)) => SymStep::Exit(status),
            Some(Ending::Trapped(kind, at)) => SymStep::Trap { kind, at },
            Some(Ending::Observed(at)) => SymStep::Observes(at),
        }
    }

    /// Does a system call.
    fn call<I: Source, O: Sink, E: Sink>(
        &mut self,
        input: &mut I,
        out: &mut O,
        err: &mut E,
    ) -> SymStep
        requires running { self.old.end ≡ None }
        requires place { self.old.place.off + 4 < 2 ^ 32 }
        ensures calls { (s : SymState) (out_before err_before : Option (List ℕ))
            → IsState self.old (I.left input.old) (out_before, O.written out.old) (err_before, E.written err.old) s
            → CallsTo self.old result s self.new (I.left input.new) (out_before, O.written out.new) (err_before, E.written err.new) }
        ensures answer { IsAnswer result self.new.end }
        ensures read_fault { result ≡ SymStep.ReadFault → IsTaking (view_call self.old) × Rose (I.faults input.old) (I.faults input.new) }
        ensures write_fault { result ≡ SymStep.WriteFault → (IsPutting 1 (view_call self.old) × Rose (O.faults out.old) (O.faults out.new))
            ⊎ (IsPutting 2 (view_call self.old) × Rose (E.faults err.old) (E.faults err.new)) }
        ensures no_read_fault { result ≢ SymStep.ReadFault → I.faults input.new ≡ I.faults input.old }
        ensures no_write_fault { result ≢ SymStep.WriteFault → (O.faults out.new ≡ O.faults out.old) × (E.faults err.new ≡ E.faults err.old) }
        ensures no_memory { result ≡ SymStep.NoMemory → (input.new ≡ input.old) × (out.new ≡ out.old) × (err.new ≡ err.old) }
        ensures kept { result ≡ SymStep.NoMemory → (left out_before err_before : List ℕ) → state_of self.new left out_before err_before ≡ state_of self.old left out_before err_before }
        ensures program { self.new.program ≡ self.old.program }
    {
        match self.request() {
            Request::Exit(status) => self.exit(status),
            Request::Answer(v0, a3) => {
                self.answer(Value::Num(v0), a3);
                SymStep::Went
            }
            Request::Put(Descriptor::Out, span) => {
                if self.put(out, span) {
                    SymStep::Went
                } else {
                    SymStep::WriteFault
                }
            }
            Request::Put(Descriptor::Err, span) => {
                if self.put(err, span) {
                    SymStep::Went
                } else {
                    SymStep::WriteFault
                }
            }
            Request::Take(span) => {
                if self.take(input, span) {
                    SymStep::Went
                } else {
                    SymStep::ReadFault
                }
            }
            Request::HeapEnd => {
                self.answer_heap_end();
                SymStep::Went
            }
            Request::Resize(size) => match self.resize(size) {
                Ok(()) => SymStep::Went,
                Err(NoMemory) => SymStep::NoMemory,
            },
            Request::Observe => self.end_observed(),
        }
    }

    /// Takes one step.
    ///
    /// From a state of the definition it comes to the definition's next state, which is the one answered. It answers a
    /// fault only at a system call that takes or puts bytes, where the count of that source or sink rose; then the state
    /// is as before, but that bytes already taken stand at the front of the range, and a front of the bytes is written.
    /// Where memory ran out, which only a store of a value that has no number and a change of the heap take, nothing has
    /// changed. After both it may be called again. Once the run has ended, each step answers the same and changes nothing.
    pub fn step<I: Source, O: Sink, E: Sink>(
        &mut self,
        input: &mut I,
        out: &mut O,
        err: &mut E,
    ) -> SymStep
        ensures steps { (s : SymState) (out_before err_before : Option (List ℕ))
            → IsState self.old (I.left input.old) (out_before, O.written out.old) (err_before, E.written err.old) s
            → StepsTo (program_script self.old.program) result s self.new (I.left input.new) (out_before, O.written out.new) (err_before, E.written err.new) }
        ensures program { self.new.program ≡ self.old.program }
        ensures answer { IsAnswer result self.new.end }
        ensures ended { IsSome self.old.end → (self.new ≡ self.old) × (input.new ≡ input.old) × (out.new ≡ out.old) × (err.new ≡ err.old) }
        ensures no_memory { result ≡ SymStep.NoMemory → (input.new ≡ input.old) × (out.new ≡ out.old) × (err.new ≡ err.old) }
        ensures kept { result ≡ SymStep.NoMemory → (left out_before err_before : List ℕ) → state_of self.new left out_before err_before ≡ state_of self.old left out_before err_before }
        ensures read_fault { result ≡ SymStep.ReadFault → Rose (I.faults input.old) (I.faults input.new) × IsTaking (view_call self.old) × IsCallNext self.old }
        ensures write_fault { result ≡ SymStep.WriteFault → IsCallNext self.old
            × ((IsPutting 1 (view_call self.old) × Rose (O.faults out.old) (O.faults out.new))
            ⊎ (IsPutting 2 (view_call self.old) × Rose (E.faults err.old) (E.faults err.new))) }
        ensures no_read_fault { result ≢ SymStep.ReadFault → I.faults input.new ≡ I.faults input.old }
        ensures no_write_fault { result ≢ SymStep.WriteFault → (O.faults out.new ≡ O.faults out.old) × (E.faults err.new ≡ E.faults err.old) }
    {
        match self.plain_step() {
            Ok(true) => self.call(input, out, err),
            Ok(false) => self.answered(),
            Err(NoMemory) => SymStep::NoMemory,
        }
    }

    /// Takes steps until the run has ended, so many are taken, or one of them fails or wants memory.
    ///
    /// `Went` says that all are taken and the run has not ended. From a state of the definition the machine comes to the
    /// definition's state after that many steps, in which an ended run stays; or, after a fault or want of memory, to what
    /// that step leaves, and those before it had none.
    pub fn run<I: Source, O: Sink, E: Sink>(
        &mut self,
        steps: u64,
        input: &mut I,
        out: &mut O,
        err: &mut E,
    ) -> SymStep
        ensures runs { (s : SymState) (out_before err_before : Option (List ℕ))
            → IsState self.old (I.left input.old) (out_before, O.written out.old) (err_before, E.written err.old) s
            → RunsTo (program_script self.old.program) steps result s self.new (I.left input.new) (out_before, O.written out.new) (err_before, E.written err.new) }
        ensures program { self.new.program ≡ self.old.program }
        ensures answer { IsAnswer result self.new.end }
        ensures read_fault { result ≡ SymStep.ReadFault → Rose (I.faults input.old) (I.faults input.new) }
        ensures write_fault { result ≡ SymStep.WriteFault → Rose (O.faults out.old) (O.faults out.new) ⊎ Rose (E.faults err.old) (E.faults err.new) }
        ensures no_read_fault { result ≢ SymStep.ReadFault → I.faults input.new ≡ I.faults input.old }
        ensures no_write_fault { result ≢ SymStep.WriteFault → (O.faults out.new ≡ O.faults out.old) × (E.faults err.new ≡ E.faults err.old) }
    {
        for turn in 0..steps {
            match self.step(input, out, err) {
                SymStep::Went => {}
                SymStep::Exit(status) => return SymStep::Exit(status),
                SymStep::Trap { kind, at } => return SymStep::Trap { kind, at },
                SymStep::Observes(at) => return SymStep::Observes(at),
                SymStep::ReadFault => return SymStep::ReadFault,
                SymStep::WriteFault => return SymStep::WriteFault,
                SymStep::NoMemory => return SymStep::NoMemory,
            }
        }
        self.answered()
    }
}
