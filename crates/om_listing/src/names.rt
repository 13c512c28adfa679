// The names of operations.
ghost use Rattle.std.specs.Prelude.{◌≡◌, ◌≤◌, length};
ghost use Rattle.om_listing.specs.Names.{memory_name, branch_name, jump_name, barrier_name, operate_name, move_name};
ghost use Rattle.om_alpha.specs.declared.op.AluOp.TheVariants.{Add, Sub, Mul, AddV, SubV, MulV, Compare, ExtLow, ExtHigh, InsLow, InsHigh, MskLow, MskHigh};

use om_alpha::{AluOp, Cmp, Cond, Scale, Size, Wide, Width};
use om_isa::{BrOp, JumpOp, MemOp, MiscOp};

/// The name of a memory operation, in lower case as all of these (Alpha Architecture Handbook, chapter 4).
pub fn memory(op: MemOp) -> &'static [u8]
    ensures name { result.now ≡ memory_name op }
    ensures short { length result.now ≤ 13 }
{
    match op {
        MemOp::Lda => b"lda",
        MemOp::Ldah => b"ldah",
        MemOp::Ldbu => b"ldbu",
        MemOp::LdqU => b"ldq_u",
        MemOp::Ldwu => b"ldwu",
        MemOp::Stw => b"stw",
        MemOp::Stb => b"stb",
        MemOp::StqU => b"stq_u",
        MemOp::Ldl => b"ldl",
        MemOp::Ldq => b"ldq",
        MemOp::Stl => b"stl",
        MemOp::Stq => b"stq",
    }
}

/// The name of a branch.
pub fn branch(op: BrOp) -> &'static [u8]
    ensures name { result.now ≡ branch_name op }
    ensures short { length result.now ≤ 13 }
{
    match op {
        BrOp::Br => b"br",
        BrOp::Bsr => b"bsr",
        BrOp::If(Cond::Lbc) => b"blbc",
        BrOp::If(Cond::Eq) => b"beq",
        BrOp::If(Cond::Lt) => b"blt",
        BrOp::If(Cond::Le) => b"ble",
        BrOp::If(Cond::Lbs) => b"blbs",
        BrOp::If(Cond::Ne) => b"bne",
        BrOp::If(Cond::Ge) => b"bge",
        BrOp::If(Cond::Gt) => b"bgt",
    }
}

/// The name of a jump.
pub fn jump(kind: JumpOp) -> &'static [u8]
    ensures name { result.now ≡ jump_name kind }
    ensures short { length result.now ≤ 13 }
{
    match kind {
        JumpOp::Jmp => b"jmp",
        JumpOp::Jsr => b"jsr",
        JumpOp::Ret => b"ret",
        JumpOp::Jcr => b"jsr_coroutine",
    }
}

/// The name of a barrier.
pub fn barrier(op: MiscOp) -> &'static [u8]
    ensures name { result.now ≡ barrier_name op }
    ensures short { length result.now ≤ 13 }
{
    match op {
        MiscOp::Trapb => b"trapb",
        MiscOp::Excb => b"excb",
        MiscOp::Mb => b"mb",
        MiscOp::Wmb => b"wmb",
    }
}

/// The name of a conditional move.
pub fn conditional_move(cond: Cond) -> &'static [u8]
    ensures name { result.now ≡ move_name cond }
    ensures short { length result.now ≤ 13 }
{
    match cond {
        Cond::Lbs => b"cmovlbs",
        Cond::Lbc => b"cmovlbc",
        Cond::Eq => b"cmoveq",
        Cond::Ne => b"cmovne",
        Cond::Lt => b"cmovlt",
        Cond::Ge => b"cmovge",
        Cond::Le => b"cmovle",
        Cond::Gt => b"cmovgt",
    }
}

fn sum(scale: Scale, width: Width) -> &'static [u8]
    ensures name { result.now ≡ operate_name (Add scale width) }
    ensures short { length result.now ≤ 13 }
{
    match (scale, width) {
        (Scale::One, Width::Long) => b"addl",
        (Scale::Four, Width::Long) => b"s4addl",
        (Scale::Eight, Width::Long) => b"s8addl",
        (Scale::One, Width::Quad) => b"addq",
        (Scale::Four, Width::Quad) => b"s4addq",
        (Scale::Eight, Width::Quad) => b"s8addq",
    }
}

fn difference(scale: Scale, width: Width) -> &'static [u8]
    ensures name { result.now ≡ operate_name (Sub scale width) }
    ensures short { length result.now ≤ 13 }
{
    match (scale, width) {
        (Scale::One, Width::Long) => b"subl",
        (Scale::Four, Width::Long) => b"s4subl",
        (Scale::Eight, Width::Long) => b"s8subl",
        (Scale::One, Width::Quad) => b"subq",
        (Scale::Four, Width::Quad) => b"s4subq",
        (Scale::Eight, Width::Quad) => b"s8subq",
    }
}

fn comparison(cmp: Cmp) -> &'static [u8]
    ensures name { result.now ≡ operate_name (Compare cmp) }
    ensures short { length result.now ≤ 13 }
{
    match cmp {
        Cmp::Eq => b"cmpeq",
        Cmp::Lt => b"cmplt",
        Cmp::Le => b"cmple",
        Cmp::Ult => b"cmpult",
        Cmp::Ule => b"cmpule",
    }
}

fn extract_low(size: Size) -> &'static [u8]
    ensures name { result.now ≡ operate_name (ExtLow size) }
    ensures short { length result.now ≤ 13 }
{
    match size {
        Size::Byte => b"extbl",
        Size::Word => b"extwl",
        Size::Long => b"extll",
        Size::Quad => b"extql",
    }
}

fn extract_high(size: Wide) -> &'static [u8]
    ensures name { result.now ≡ operate_name (ExtHigh size) }
    ensures short { length result.now ≤ 13 }
{
    match size {
        Wide::Word => b"extwh",
        Wide::Long => b"extlh",
        Wide::Quad => b"extqh",
    }
}

fn insert_low(size: Size) -> &'static [u8]
    ensures name { result.now ≡ operate_name (InsLow size) }
    ensures short { length result.now ≤ 13 }
{
    match size {
        Size::Byte => b"insbl",
        Size::Word => b"inswl",
        Size::Long => b"insll",
        Size::Quad => b"insql",
    }
}

fn insert_high(size: Wide) -> &'static [u8]
    ensures name { result.now ≡ operate_name (InsHigh size) }
    ensures short { length result.now ≤ 13 }
{
    match size {
        Wide::Word => b"inswh",
        Wide::Long => b"inslh",
        Wide::Quad => b"insqh",
    }
}

fn mask_low(size: Size) -> &'static [u8]
    ensures name { result.now ≡ operate_name (MskLow size) }
    ensures short { length result.now ≤ 13 }
{
    match size {
        Size::Byte => b"mskbl",
        Size::Word => b"mskwl",
        Size::Long => b"mskll",
        Size::Quad => b"mskql",
    }
}

fn mask_high(size: Wide) -> &'static [u8]
    ensures name { result.now ≡ operate_name (MskHigh size) }
    ensures short { length result.now ≤ 13 }
{
    match size {
        Wide::Word => b"mskwh",
        Wide::Long => b"msklh",
        Wide::Quad => b"mskqh",
    }
}

/// The name of an operation of the operate format.
pub fn operate(op: AluOp) -> &'static [u8]
    ensures name { result.now ≡ operate_name op }
    ensures short { length result.now ≤ 13 }
{
    match op {
        AluOp::Add(scale, width) => sum(scale, width),
        AluOp::Sub(scale, width) => difference(scale, width),
        AluOp::Mul(Width::Long) => b"mull",
        AluOp::Mul(Width::Quad) => b"mulq",
        AluOp::AddV(Width::Long) => b"addl/v",
        AluOp::AddV(Width::Quad) => b"addq/v",
        AluOp::SubV(Width::Long) => b"subl/v",
        AluOp::SubV(Width::Quad) => b"subq/v",
        AluOp::MulV(Width::Long) => b"mull/v",
        AluOp::MulV(Width::Quad) => b"mulq/v",
        AluOp::Umulh => b"umulh",
        AluOp::Compare(cmp) => comparison(cmp),
        AluOp::Cmpbge => b"cmpbge",
        AluOp::And => b"and",
        AluOp::Bis => b"bis",
        AluOp::Xor => b"xor",
        AluOp::Bic => b"bic",
        AluOp::Ornot => b"ornot",
        AluOp::Eqv => b"eqv",
        AluOp::Sll => b"sll",
        AluOp::Srl => b"srl",
        AluOp::Sra => b"sra",
        AluOp::Zap => b"zap",
        AluOp::Zapnot => b"zapnot",
        AluOp::Sextb => b"sextb",
        AluOp::Sextw => b"sextw",
        AluOp::ExtLow(size) => extract_low(size),
        AluOp::ExtHigh(size) => extract_high(size),
        AluOp::InsLow(size) => insert_low(size),
        AluOp::InsHigh(size) => insert_high(size),
        AluOp::MskLow(size) => mask_low(size),
        AluOp::MskHigh(size) => mask_high(size),
    }
}
