// The names of instructions.
ghost use Rattle.std.specs.Prelude.{◌≡◌, bytes_eq, find};
ghost use Rattle.om_asm.specs.Forms.{form_name, form_of as form_by, all_forms};

use om_alpha::{AluOp, Cmp, Cond, Scale, Size, Wide, Width};
use om_isa::{BrOp, JumpOp, MemOp, MiscOp};
use om_listing::names;

/// What an instruction's name stands for: its format with the operation.
#[derive(Clone, Copy, PartialEq, Eq, Debug)]
pub enum Form {
    Memory(MemOp),
    Jump(JumpOp),
    Branch(BrOp),
    Operate(AluOp),
    Move(Cond),
    Barrier(MiscOp),
    Fnop,
    Halt,
    Callsys,
}

// All forms.
const FORMS: [Form; 102] = [
    Form::Memory(MemOp::Lda),
    Form::Memory(MemOp::Ldah),
    Form::Memory(MemOp::Ldbu),
    Form::Memory(MemOp::LdqU),
    Form::Memory(MemOp::Ldwu),
    Form::Memory(MemOp::Stw),
    Form::Memory(MemOp::Stb),
    Form::Memory(MemOp::StqU),
    Form::Memory(MemOp::Ldl),
    Form::Memory(MemOp::Ldq),
    Form::Memory(MemOp::Stl),
    Form::Memory(MemOp::Stq),
    Form::Jump(JumpOp::Jmp),
    Form::Jump(JumpOp::Jsr),
    Form::Jump(JumpOp::Ret),
    Form::Jump(JumpOp::Jcr),
    Form::Branch(BrOp::Br),
    Form::Branch(BrOp::Bsr),
    Form::Branch(BrOp::If(Cond::Lbc)),
    Form::Branch(BrOp::If(Cond::Eq)),
    Form::Branch(BrOp::If(Cond::Lt)),
    Form::Branch(BrOp::If(Cond::Le)),
    Form::Branch(BrOp::If(Cond::Lbs)),
    Form::Branch(BrOp::If(Cond::Ne)),
    Form::Branch(BrOp::If(Cond::Ge)),
    Form::Branch(BrOp::If(Cond::Gt)),
    Form::Operate(AluOp::Add(Scale::One, Width::Long)),
    Form::Operate(AluOp::Add(Scale::One, Width::Quad)),
    Form::Operate(AluOp::Add(Scale::Four, Width::Long)),
    Form::Operate(AluOp::Add(Scale::Four, Width::Quad)),
    Form::Operate(AluOp::Add(Scale::Eight, Width::Long)),
    Form::Operate(AluOp::Add(Scale::Eight, Width::Quad)),
    Form::Operate(AluOp::Sub(Scale::One, Width::Long)),
    Form::Operate(AluOp::Sub(Scale::One, Width::Quad)),
    Form::Operate(AluOp::Sub(Scale::Four, Width::Long)),
    Form::Operate(AluOp::Sub(Scale::Four, Width::Quad)),
    Form::Operate(AluOp::Sub(Scale::Eight, Width::Long)),
    Form::Operate(AluOp::Sub(Scale::Eight, Width::Quad)),
    Form::Operate(AluOp::Mul(Width::Long)),
    Form::Operate(AluOp::Mul(Width::Quad)),
    Form::Operate(AluOp::AddV(Width::Long)),
    Form::Operate(AluOp::AddV(Width::Quad)),
    Form::Operate(AluOp::SubV(Width::Long)),
    Form::Operate(AluOp::SubV(Width::Quad)),
    Form::Operate(AluOp::MulV(Width::Long)),
    Form::Operate(AluOp::MulV(Width::Quad)),
    Form::Operate(AluOp::Umulh),
    Form::Operate(AluOp::Compare(Cmp::Eq)),
    Form::Operate(AluOp::Compare(Cmp::Lt)),
    Form::Operate(AluOp::Compare(Cmp::Le)),
    Form::Operate(AluOp::Compare(Cmp::Ult)),
    Form::Operate(AluOp::Compare(Cmp::Ule)),
    Form::Operate(AluOp::Cmpbge),
    Form::Operate(AluOp::And),
    Form::Operate(AluOp::Bis),
    Form::Operate(AluOp::Xor),
    Form::Operate(AluOp::Bic),
    Form::Operate(AluOp::Ornot),
    Form::Operate(AluOp::Eqv),
    Form::Operate(AluOp::Sll),
    Form::Operate(AluOp::Srl),
    Form::Operate(AluOp::Sra),
    Form::Operate(AluOp::Zap),
    Form::Operate(AluOp::Zapnot),
    Form::Operate(AluOp::Sextb),
    Form::Operate(AluOp::Sextw),
    Form::Operate(AluOp::ExtLow(Size::Byte)),
    Form::Operate(AluOp::ExtLow(Size::Word)),
    Form::Operate(AluOp::ExtLow(Size::Long)),
    Form::Operate(AluOp::ExtLow(Size::Quad)),
    Form::Operate(AluOp::ExtHigh(Wide::Word)),
    Form::Operate(AluOp::ExtHigh(Wide::Long)),
    Form::Operate(AluOp::ExtHigh(Wide::Quad)),
    Form::Operate(AluOp::InsLow(Size::Byte)),
    Form::Operate(AluOp::InsLow(Size::Word)),
    Form::Operate(AluOp::InsLow(Size::Long)),
    Form::Operate(AluOp::InsLow(Size::Quad)),
    Form::Operate(AluOp::InsHigh(Wide::Word)),
    Form::Operate(AluOp::InsHigh(Wide::Long)),
    Form::Operate(AluOp::InsHigh(Wide::Quad)),
    Form::Operate(AluOp::MskLow(Size::Byte)),
    Form::Operate(AluOp::MskLow(Size::Word)),
    Form::Operate(AluOp::MskLow(Size::Long)),
    Form::Operate(AluOp::MskLow(Size::Quad)),
    Form::Operate(AluOp::MskHigh(Wide::Word)),
    Form::Operate(AluOp::MskHigh(Wide::Long)),
    Form::Operate(AluOp::MskHigh(Wide::Quad)),
    Form::Move(Cond::Lbs),
    Form::Move(Cond::Lbc),
    Form::Move(Cond::Eq),
    Form::Move(Cond::Ne),
    Form::Move(Cond::Lt),
    Form::Move(Cond::Ge),
    Form::Move(Cond::Le),
    Form::Move(Cond::Gt),
    Form::Barrier(MiscOp::Trapb),
    Form::Barrier(MiscOp::Excb),
    Form::Barrier(MiscOp::Mb),
    Form::Barrier(MiscOp::Wmb),
    Form::Fnop,
    Form::Halt,
    Form::Callsys,
];

fn name(form: Form) -> &'static [u8]
    ensures { result.now ≡ form_name form }
{
    match form {
        Form::Memory(op) => names::memory(op),
        Form::Jump(kind) => names::jump(kind),
        Form::Branch(op) => names::branch(op),
        Form::Operate(op) => names::operate(op),
        Form::Move(cond) => names::conditional_move(cond),
        Form::Barrier(op) => names::barrier(op),
        Form::Fnop => b"fnop",
        Form::Halt => b"halt",
        Form::Callsys => b"callsys",
    }
}

// The first of some forms that has this name.
fn first_named(forms: &[Form], text: &[u8]) -> Option<Form>
    ensures { result ≡ find (λ f. bytes_eq (form_name f) text.now) forms.now }
{
    for form in forms {
        if name(*form) == text {
            return Some(*form);
        }
    }
    None
}

/// The form of a name.
#[tactic(auto, unfolding(crate::specs::Forms::form_of))]
pub(crate) fn form_of(text: &[u8]) -> Option<Form>
    ensures { result ≡ form_by text.now }
{
    first_named(&FORMS, text)
}
