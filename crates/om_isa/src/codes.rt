// The numbers in a word that say which operation it is.
ghost use Rattle.std.specs.Prelude.{◌≡◌, ◌<◌, ◌^◌, ◌==◌, ◌&&◌, find};
ghost use Rattle.om_isa.specs.Codes.{memory_opcode, branch_opcode, jump_code, misc_code, operate_code, move_function, memory_ops, branch_ops, jump_ops, misc_ops, operate_ops, conditions};
ghost use Rattle.om_alpha.specs.declared.op.AluOp.TheVariants.{Add, Sub, Mul, MulV, Compare, MskLow, ExtLow, InsLow, MskHigh, ExtHigh, InsHigh};

use crate::instr::{BrOp, JumpOp, MemOp, MiscOp};
use om_alpha::{AluOp, Cmp, Cond, Scale, Size, Wide, Width};

pub(crate) fn memory_op(opcode: u32) -> Option<MemOp>
    ensures { result ≡ find (λ op. memory_opcode op == opcode) memory_ops }
{
    match opcode {
        0x08 => Some(MemOp::Lda),
        0x09 => Some(MemOp::Ldah),
        0x0a => Some(MemOp::Ldbu),
        0x0b => Some(MemOp::LdqU),
        0x0c => Some(MemOp::Ldwu),
        0x0d => Some(MemOp::Stw),
        0x0e => Some(MemOp::Stb),
        0x0f => Some(MemOp::StqU),
        0x28 => Some(MemOp::Ldl),
        0x29 => Some(MemOp::Ldq),
        0x2c => Some(MemOp::Stl),
        0x2d => Some(MemOp::Stq),
        _ => None,
    }
}

pub(crate) fn branch_op(opcode: u32) -> Option<BrOp>
    ensures { result ≡ find (λ op. branch_opcode op == opcode) branch_ops }
{
    match opcode {
        0x30 => Some(BrOp::Br),
        0x34 => Some(BrOp::Bsr),
        0x38 => Some(BrOp::If(Cond::Lbc)),
        0x39 => Some(BrOp::If(Cond::Eq)),
        0x3a => Some(BrOp::If(Cond::Lt)),
        0x3b => Some(BrOp::If(Cond::Le)),
        0x3c => Some(BrOp::If(Cond::Lbs)),
        0x3d => Some(BrOp::If(Cond::Ne)),
        0x3e => Some(BrOp::If(Cond::Ge)),
        0x3f => Some(BrOp::If(Cond::Gt)),
        _ => None,
    }
}

pub(crate) fn memory_number(op: MemOp) -> u32
    ensures value { result ≡ memory_opcode op }
    ensures range { result < 64 }
{
    match op {
        MemOp::Lda => 0x08,
        MemOp::Ldah => 0x09,
        MemOp::Ldbu => 0x0a,
        MemOp::LdqU => 0x0b,
        MemOp::Ldwu => 0x0c,
        MemOp::Stw => 0x0d,
        MemOp::Stb => 0x0e,
        MemOp::StqU => 0x0f,
        MemOp::Ldl => 0x28,
        MemOp::Ldq => 0x29,
        MemOp::Stl => 0x2c,
        MemOp::Stq => 0x2d,
    }
}

// Sums.
fn add_number(scale: Scale, width: Width) -> (u32, u32)
    ensures value { result ≡ operate_code (Add scale width) }
    ensures opcode { result.0 < 64 }
    ensures function { result.1 < 128 }
{
    match (scale, width) {
        (Scale::One, Width::Long) => (0x10, 0x00),
        (Scale::Four, Width::Long) => (0x10, 0x02),
        (Scale::Eight, Width::Long) => (0x10, 0x12),
        (Scale::One, Width::Quad) => (0x10, 0x20),
        (Scale::Four, Width::Quad) => (0x10, 0x22),
        (Scale::Eight, Width::Quad) => (0x10, 0x32),
    }
}

// Differences.
fn sub_number(scale: Scale, width: Width) -> (u32, u32)
    ensures value { result ≡ operate_code (Sub scale width) }
    ensures opcode { result.0 < 64 }
    ensures function { result.1 < 128 }
{
    match (scale, width) {
        (Scale::One, Width::Long) => (0x10, 0x09),
        (Scale::Four, Width::Long) => (0x10, 0x0b),
        (Scale::Eight, Width::Long) => (0x10, 0x1b),
        (Scale::One, Width::Quad) => (0x10, 0x29),
        (Scale::Four, Width::Quad) => (0x10, 0x2b),
        (Scale::Eight, Width::Quad) => (0x10, 0x3b),
    }
}

// Comparisons.
fn compare_number(cmp: Cmp) -> (u32, u32)
    ensures value { result ≡ operate_code (Compare cmp) }
    ensures opcode { result.0 < 64 }
    ensures function { result.1 < 128 }
{
    match cmp {
        Cmp::Ult => (0x10, 0x1d),
        Cmp::Eq => (0x10, 0x2d),
        Cmp::Ule => (0x10, 0x3d),
        Cmp::Lt => (0x10, 0x4d),
        Cmp::Le => (0x10, 0x6d),
    }
}

// Masks of low bytes.
fn mask_low_number(size: Size) -> (u32, u32)
    ensures value { result ≡ operate_code (MskLow size) }
    ensures opcode { result.0 < 64 }
    ensures function { result.1 < 128 }
{
    match size {
        Size::Byte => (0x12, 0x02),
        Size::Word => (0x12, 0x12),
        Size::Long => (0x12, 0x22),
        Size::Quad => (0x12, 0x32),
    }
}

// Extracts of low bytes.
fn extract_low_number(size: Size) -> (u32, u32)
    ensures value { result ≡ operate_code (ExtLow size) }
    ensures opcode { result.0 < 64 }
    ensures function { result.1 < 128 }
{
    match size {
        Size::Byte => (0x12, 0x06),
        Size::Word => (0x12, 0x16),
        Size::Long => (0x12, 0x26),
        Size::Quad => (0x12, 0x36),
    }
}

// Inserts of low bytes.
fn insert_low_number(size: Size) -> (u32, u32)
    ensures value { result ≡ operate_code (InsLow size) }
    ensures opcode { result.0 < 64 }
    ensures function { result.1 < 128 }
{
    match size {
        Size::Byte => (0x12, 0x0b),
        Size::Word => (0x12, 0x1b),
        Size::Long => (0x12, 0x2b),
        Size::Quad => (0x12, 0x3b),
    }
}

// Masks of high bytes.
fn mask_high_number(size: Wide) -> (u32, u32)
    ensures value { result ≡ operate_code (MskHigh size) }
    ensures opcode { result.0 < 64 }
    ensures function { result.1 < 128 }
{
    match size {
        Wide::Word => (0x12, 0x52),
        Wide::Long => (0x12, 0x62),
        Wide::Quad => (0x12, 0x72),
    }
}

// Extracts of high bytes.
fn extract_high_number(size: Wide) -> (u32, u32)
    ensures value { result ≡ operate_code (ExtHigh size) }
    ensures opcode { result.0 < 64 }
    ensures function { result.1 < 128 }
{
    match size {
        Wide::Word => (0x12, 0x5a),
        Wide::Long => (0x12, 0x6a),
        Wide::Quad => (0x12, 0x7a),
    }
}

// Inserts of high bytes.
fn insert_high_number(size: Wide) -> (u32, u32)
    ensures value { result ≡ operate_code (InsHigh size) }
    ensures opcode { result.0 < 64 }
    ensures function { result.1 < 128 }
{
    match size {
        Wide::Word => (0x12, 0x57),
        Wide::Long => (0x12, 0x67),
        Wide::Quad => (0x12, 0x77),
    }
}

// Products.
fn mul_number(width: Width) -> (u32, u32)
    ensures value { result ≡ operate_code (Mul width) }
    ensures opcode { result.0 < 64 }
    ensures function { result.1 < 128 }
{
    match width {
        Width::Long => (0x13, 0x00),
        Width::Quad => (0x13, 0x20),
    }
}

// Products that trap where they overflow.
fn mul_trap_number(width: Width) -> (u32, u32)
    ensures value { result ≡ operate_code (MulV width) }
    ensures opcode { result.0 < 64 }
    ensures function { result.1 < 128 }
{
    match width {
        Width::Long => (0x13, 0x40),
        Width::Quad => (0x13, 0x60),
    }
}

pub(crate) fn operate_number(op: AluOp) -> (u32, u32)
    ensures value { result ≡ operate_code op }
    ensures opcode { result.0 < 64 }
    ensures function { result.1 < 128 }
{
    match op {
        AluOp::Add(scale, width) => add_number(scale, width),
        AluOp::Sub(scale, width) => sub_number(scale, width),
        AluOp::Cmpbge => (0x10, 0x0f),
        AluOp::Compare(cmp) => compare_number(cmp),
        AluOp::AddV(Width::Long) => (0x10, 0x40),
        AluOp::SubV(Width::Long) => (0x10, 0x49),
        AluOp::AddV(Width::Quad) => (0x10, 0x60),
        AluOp::SubV(Width::Quad) => (0x10, 0x69),
        AluOp::And => (0x11, 0x00),
        AluOp::Bic => (0x11, 0x08),
        AluOp::Bis => (0x11, 0x20),
        AluOp::Ornot => (0x11, 0x28),
        AluOp::Xor => (0x11, 0x40),
        AluOp::Eqv => (0x11, 0x48),
        AluOp::MskLow(size) => mask_low_number(size),
        AluOp::ExtLow(size) => extract_low_number(size),
        AluOp::InsLow(size) => insert_low_number(size),
        AluOp::Zap => (0x12, 0x30),
        AluOp::Zapnot => (0x12, 0x31),
        AluOp::Srl => (0x12, 0x34),
        AluOp::Sll => (0x12, 0x39),
        AluOp::Sra => (0x12, 0x3c),
        AluOp::MskHigh(size) => mask_high_number(size),
        AluOp::InsHigh(size) => insert_high_number(size),
        AluOp::ExtHigh(size) => extract_high_number(size),
        AluOp::Mul(width) => mul_number(width),
        AluOp::Umulh => (0x13, 0x30),
        AluOp::MulV(width) => mul_trap_number(width),
        AluOp::Sextb => (0x1c, 0x00),
        AluOp::Sextw => (0x1c, 0x01),
    }
}

// Sums, differences and comparisons: the operations of opcode 0x10.
fn arithmetic_op(function: u32) -> Option<AluOp>
    ensures { result ≡ find (λ op. ((operate_code op).0 == 0x10) && ((operate_code op).1 == function)) operate_ops }
{
    match function {
        0x00 => Some(AluOp::Add(Scale::One, Width::Long)),
        0x02 => Some(AluOp::Add(Scale::Four, Width::Long)),
        0x09 => Some(AluOp::Sub(Scale::One, Width::Long)),
        0x0b => Some(AluOp::Sub(Scale::Four, Width::Long)),
        0x0f => Some(AluOp::Cmpbge),
        0x12 => Some(AluOp::Add(Scale::Eight, Width::Long)),
        0x1b => Some(AluOp::Sub(Scale::Eight, Width::Long)),
        0x1d => Some(AluOp::Compare(Cmp::Ult)),
        0x20 => Some(AluOp::Add(Scale::One, Width::Quad)),
        0x22 => Some(AluOp::Add(Scale::Four, Width::Quad)),
        0x29 => Some(AluOp::Sub(Scale::One, Width::Quad)),
        0x2b => Some(AluOp::Sub(Scale::Four, Width::Quad)),
        0x2d => Some(AluOp::Compare(Cmp::Eq)),
        0x32 => Some(AluOp::Add(Scale::Eight, Width::Quad)),
        0x3b => Some(AluOp::Sub(Scale::Eight, Width::Quad)),
        0x3d => Some(AluOp::Compare(Cmp::Ule)),
        0x40 => Some(AluOp::AddV(Width::Long)),
        0x49 => Some(AluOp::SubV(Width::Long)),
        0x4d => Some(AluOp::Compare(Cmp::Lt)),
        0x60 => Some(AluOp::AddV(Width::Quad)),
        0x69 => Some(AluOp::SubV(Width::Quad)),
        0x6d => Some(AluOp::Compare(Cmp::Le)),
        _ => None,
    }
}

// Logical operations: the operations of opcode 0x11.
fn logical_op(function: u32) -> Option<AluOp>
    ensures { result ≡ find (λ op. ((operate_code op).0 == 0x11) && ((operate_code op).1 == function)) operate_ops }
{
    match function {
        0x00 => Some(AluOp::And),
        0x08 => Some(AluOp::Bic),
        0x20 => Some(AluOp::Bis),
        0x28 => Some(AluOp::Ornot),
        0x40 => Some(AluOp::Xor),
        0x48 => Some(AluOp::Eqv),
        _ => None,
    }
}

// Shifts, and operations on bytes: the operations of opcode 0x12.
fn byte_op(function: u32) -> Option<AluOp>
    ensures { result ≡ find (λ op. ((operate_code op).0 == 0x12) && ((operate_code op).1 == function)) operate_ops }
{
    match function {
        0x02 => Some(AluOp::MskLow(Size::Byte)),
        0x06 => Some(AluOp::ExtLow(Size::Byte)),
        0x0b => Some(AluOp::InsLow(Size::Byte)),
        0x12 => Some(AluOp::MskLow(Size::Word)),
        0x16 => Some(AluOp::ExtLow(Size::Word)),
        0x1b => Some(AluOp::InsLow(Size::Word)),
        0x22 => Some(AluOp::MskLow(Size::Long)),
        0x26 => Some(AluOp::ExtLow(Size::Long)),
        0x2b => Some(AluOp::InsLow(Size::Long)),
        0x30 => Some(AluOp::Zap),
        0x31 => Some(AluOp::Zapnot),
        0x32 => Some(AluOp::MskLow(Size::Quad)),
        0x34 => Some(AluOp::Srl),
        0x36 => Some(AluOp::ExtLow(Size::Quad)),
        0x39 => Some(AluOp::Sll),
        0x3b => Some(AluOp::InsLow(Size::Quad)),
        0x3c => Some(AluOp::Sra),
        0x52 => Some(AluOp::MskHigh(Wide::Word)),
        0x57 => Some(AluOp::InsHigh(Wide::Word)),
        0x5a => Some(AluOp::ExtHigh(Wide::Word)),
        0x62 => Some(AluOp::MskHigh(Wide::Long)),
        0x67 => Some(AluOp::InsHigh(Wide::Long)),
        0x6a => Some(AluOp::ExtHigh(Wide::Long)),
        0x72 => Some(AluOp::MskHigh(Wide::Quad)),
        0x77 => Some(AluOp::InsHigh(Wide::Quad)),
        0x7a => Some(AluOp::ExtHigh(Wide::Quad)),
        _ => None,
    }
}

// Products: the operations of opcode 0x13.
fn multiply_op(function: u32) -> Option<AluOp>
    ensures { result ≡ find (λ op. ((operate_code op).0 == 0x13) && ((operate_code op).1 == function)) operate_ops }
{
    match function {
        0x00 => Some(AluOp::Mul(Width::Long)),
        0x20 => Some(AluOp::Mul(Width::Quad)),
        0x30 => Some(AluOp::Umulh),
        0x40 => Some(AluOp::MulV(Width::Long)),
        0x60 => Some(AluOp::MulV(Width::Quad)),
        _ => None,
    }
}

// Sign extensions: the operations of opcode 0x1c.
fn extension_op(function: u32) -> Option<AluOp>
    ensures { result ≡ find (λ op. ((operate_code op).0 == 0x1c) && ((operate_code op).1 == function)) operate_ops }
{
    match function {
        0x00 => Some(AluOp::Sextb),
        0x01 => Some(AluOp::Sextw),
        _ => None,
    }
}

pub(crate) fn operate_op(opcode: u32, function: u32) -> Option<AluOp>
    ensures { result ≡ find (λ op. ((operate_code op).0 == opcode) && ((operate_code op).1 == function)) operate_ops }
{
    match opcode {
        0x10 => arithmetic_op(function),
        0x11 => logical_op(function),
        0x12 => byte_op(function),
        0x13 => multiply_op(function),
        0x1c => extension_op(function),
        _ => None,
    }
}

pub(crate) fn branch_number(op: BrOp) -> u32
    ensures value { result ≡ branch_opcode op }
    ensures range { result < 64 }
{
    match op {
        BrOp::Br => 0x30,
        BrOp::Bsr => 0x34,
        BrOp::If(Cond::Lbc) => 0x38,
        BrOp::If(Cond::Eq) => 0x39,
        BrOp::If(Cond::Lt) => 0x3a,
        BrOp::If(Cond::Le) => 0x3b,
        BrOp::If(Cond::Lbs) => 0x3c,
        BrOp::If(Cond::Ne) => 0x3d,
        BrOp::If(Cond::Ge) => 0x3e,
        BrOp::If(Cond::Gt) => 0x3f,
    }
}

pub(crate) fn move_op(function: u32) -> Option<Cond>
    ensures { result ≡ find (λ cond. move_function cond == function) conditions }
{
    match function {
        0x14 => Some(Cond::Lbs),
        0x16 => Some(Cond::Lbc),
        0x24 => Some(Cond::Eq),
        0x26 => Some(Cond::Ne),
        0x44 => Some(Cond::Lt),
        0x46 => Some(Cond::Ge),
        0x64 => Some(Cond::Le),
        0x66 => Some(Cond::Gt),
        _ => None,
    }
}

pub(crate) fn move_number(cond: Cond) -> u32
    ensures value { result ≡ move_function cond }
    ensures range { result < 128 }
{
    match cond {
        Cond::Lbs => 0x14,
        Cond::Lbc => 0x16,
        Cond::Eq => 0x24,
        Cond::Ne => 0x26,
        Cond::Lt => 0x44,
        Cond::Ge => 0x46,
        Cond::Le => 0x64,
        Cond::Gt => 0x66,
    }
}

pub(crate) fn misc_op(code: u32) -> Option<MiscOp>
    ensures { result ≡ find (λ op. misc_code op == code) misc_ops }
{
    match code {
        0x0000 => Some(MiscOp::Trapb),
        0x0400 => Some(MiscOp::Excb),
        0x4000 => Some(MiscOp::Mb),
        0x4400 => Some(MiscOp::Wmb),
        _ => None,
    }
}

pub(crate) fn misc_number(op: MiscOp) -> u32
    ensures value { result ≡ misc_code op }
    ensures range { result < 2 ^ 16 }
{
    match op {
        MiscOp::Trapb => 0x0000,
        MiscOp::Excb => 0x0400,
        MiscOp::Mb => 0x4000,
        MiscOp::Wmb => 0x4400,
    }
}

pub(crate) fn jump_op(code: u32) -> Option<JumpOp>
    ensures { result ≡ find (λ kind. jump_code kind == code) jump_ops }
{
    match code {
        0 => Some(JumpOp::Jmp),
        1 => Some(JumpOp::Jsr),
        2 => Some(JumpOp::Ret),
        3 => Some(JumpOp::Jcr),
        _ => None,
    }
}

pub(crate) fn jump_number(kind: JumpOp) -> u32
    ensures value { result ≡ jump_code kind }
    ensures range { result < 4 }
{
    match kind {
        JumpOp::Jmp => 0,
        JumpOp::Jsr => 1,
        JumpOp::Ret => 2,
        JumpOp::Jcr => 3,
    }
}
