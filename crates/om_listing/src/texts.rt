// Instructions as text.
ghost use Rattle.std.specs.Prelude.{◌≡◌, ◌≤◌, ◌+◌, length};
ghost use Rattle.om_fields.specs.Bytes.{Grows};
ghost use Rattle.om_listing.specs.Texts.{register_text, operand_text, based_text, address_text, first_text, result_text, operate_start, instr_text, word_text};

use crate::names;
use crate::page::{Page, SIZE};
use om_alpha::AluOp;
use om_isa::{Instr, Opnd, Reg, decode};

impl Page {
    #[tactic(auto, unfolding(crate::specs::Texts::register_text))]
    fn push_register(&mut self, r: Reg)
        requires room { length self.old + 41 ≤ SIZE }
        ensures grows { Grows self.old self.new (register_text r) }
        ensures length { length self.new ≤ length self.old + 41 }
    {
        self.push(b"r");
        self.push_number(u64::from(r.num()));
    }

    #[tactic(auto, unfolding(crate::specs::Texts::operand_text))]
    fn push_operand(&mut self, rb: Opnd)
        requires room { length self.old + 41 ≤ SIZE }
        ensures grows { Grows self.old self.new (operand_text rb) }
        ensures length { length self.new ≤ length self.old + 41 }
    {
        match rb {
            Opnd::R(r) => self.push_register(r),
            Opnd::Lit(n) => {
                self.push(b"#");
                self.push_number(u64::from(n));
            }
        }
    }

    #[tactic(auto, unfolding(crate::specs::Texts::based_text))]
    fn push_based(&mut self, rb: Reg)
        requires room { length self.old + 43 ≤ SIZE }
        ensures grows { Grows self.old self.new (based_text rb) }
        ensures length { length self.new ≤ length self.old + 43 }
    {
        self.push(b"(");
        self.push_register(rb);
        self.push(b")");
    }

    #[tactic(auto, unfolding(crate::specs::Texts::address_text))]
    fn push_address(&mut self, disp: i16, rb: Reg)
        requires room { length self.old + 83 ≤ SIZE }
        ensures grows { Grows self.old self.new (address_text disp rb) }
        ensures length { length self.new ≤ length self.old + 83 }
    {
        self.push_signed(i32::from(disp));
        self.push_based(rb);
    }

    #[tactic(auto, unfolding(crate::specs::Texts::first_text))]
    fn push_first(&mut self, name: &[u8], r: Reg)
        requires room { length self.old + 56 ≤ SIZE }
        requires short { length name.now ≤ 13 }
        ensures grows { Grows self.old self.new (first_text name.now r) }
        ensures length { length self.new ≤ length self.old + 56 }
    {
        self.push(name);
        self.push(b" ");
        self.push_register(r);
        self.push(b",");
    }

    #[tactic(auto, unfolding(crate::specs::Texts::result_text))]
    fn push_result(&mut self, rb: Opnd, rc: Reg)
        requires room { length self.old + 83 ≤ SIZE }
        ensures grows { Grows self.old self.new (result_text rb rc) }
        ensures length { length self.new ≤ length self.old + 83 }
    {
        self.push_operand(rb);
        self.push(b",");
        self.push_register(rc);
    }

    fn push_operate_start(&mut self, op: AluOp, ra: Reg)
        requires room { length self.old + 56 ≤ SIZE }
        ensures grows { Grows self.old self.new (operate_start op ra) }
        ensures length { length self.new ≤ length self.old + 56 }
    {
        match op {
            AluOp::Sextb | AluOp::Sextw => {
                self.push(names::operate(op));
                self.push(b" ");
            }
            _ => self.push_first(names::operate(op), ra),
        }
    }

    fn push_instr(&mut self, i: &Instr)
        requires room { length self.old + 139 ≤ SIZE }
        ensures grows { Grows self.old self.new (instr_text i.now) }
        ensures length { length self.new ≤ length self.old + 139 }
    {
        match *i {
            Instr::Mem { op, ra, rb, disp } => {
                self.push_first(names::memory(op), ra);
                self.push_address(disp, rb);
            }
            Instr::Jump { kind, ra, rb, .. } => {
                self.push_first(names::jump(kind), ra);
                self.push_based(rb);
            }
            Instr::Branch { op, ra, disp } => {
                self.push_first(names::branch(op), ra);
                self.push_signed(disp.num());
            }
            Instr::Alu { op, ra, rb, rc } => {
                self.push_operate_start(op, ra);
                self.push_result(rb, rc);
            }
            Instr::Cmov { cond, ra, rb, rc } => {
                self.push_first(names::conditional_move(cond), ra);
                self.push_result(rb, rc);
            }
            Instr::Misc { op, .. } => self.push(names::barrier(op)),
            Instr::Fnop => self.push(b"fnop"),
            Instr::Halt => self.push(b"halt"),
            Instr::Callsys => self.push(b"callsys"),
        }
    }

    /// Appends the text of a word: that of its instruction, or `?` where it has none.
    #[tactic(auto, unfolding(crate::specs::Texts::word_text))]
    pub(crate) fn push_text(&mut self, w: u32)
        requires room { length self.old + 139 ≤ SIZE }
        ensures grows { Grows self.old self.new (word_text w) }
        ensures length { length self.new ≤ length self.old + 139 }
    {
        match decode(w) {
            Some(i) => self.push_instr(&i),
            None => self.push(b"?"),
        }
    }
}
