// What one instruction other than a system call does, before it is done.
ghost use Rattle.std.specs.Prelude.{◌≡◌, ◌≤◌, ◌%◌, ◌==◌, ◌*ℤ◌};
ghost use Rattle.om_isa.specs.Target.{displaced};
ghost use Rattle.om_image.specs.NumAccess.{size_bytes, size_of, address_scale, accessed, extended, plus};
ghost use Rattle.om_image.specs.NumStep.{is_text};

use om_alpha::{AluOp, Scale, Size, TrapKind, Width, alu};
use om_isa::{Disp, MemOp};

pub(crate) const TEXT_BASE: u64 = 0x1_2000_0000;

/// What one instruction other than a system call does.
#[derive(Clone, Copy, PartialEq, Eq, Debug)]
pub(crate) enum Action {
    /// Nothing; the next instruction follows.
    Nothing,
    /// A register gets a number.
    Set(u8, u64),
    /// The low bytes of a number go to an address.
    Store(u64, Size, u64),
    /// The link register, if any, gets the next address, and the instruction at an address follows.
    Jump(Option<u8>, u64),
    /// The run ends by a trap.
    Stop(TrapKind),
}

pub(crate) fn in_text(words: usize, address: u64) -> bool
    requires { words ≤ 4194304 }
    ensures { result ≡ is_text words address }
{
    TEXT_BASE <= address && address < TEXT_BASE + 4 * words as u64
}

pub(crate) fn sum(n: u64, z: i64) -> u64
    ensures { result ≡ plus n z }
{
    n.wrapping_add(z.cast_unsigned())
}

pub(crate) fn size_of_op(op: MemOp) -> Size
    ensures { result ≡ size_of op }
{
    match op {
        MemOp::Lda => Size::Quad,
        MemOp::Ldah => Size::Quad,
        MemOp::Ldbu => Size::Byte,
        MemOp::LdqU => Size::Quad,
        MemOp::Ldwu => Size::Word,
        MemOp::Stw => Size::Word,
        MemOp::Stb => Size::Byte,
        MemOp::StqU => Size::Quad,
        MemOp::Ldl => Size::Long,
        MemOp::Ldq => Size::Quad,
        MemOp::Stl => Size::Long,
        MemOp::Stq => Size::Quad,
    }
}

pub(crate) fn is_aligned(size: Size, address: u64) -> bool
    ensures { result ≡ (address % size_bytes size == 0) }
{
    match size {
        Size::Byte => true,
        Size::Word => address % 2 == 0,
        Size::Long => address % 4 == 0,
        Size::Quad => address % 8 == 0,
    }
}

pub(crate) fn scaled(op: MemOp, disp: i16) -> i64
    ensures { result ≡ address_scale op *ℤ disp }
{
    match op {
        MemOp::Ldah => 65536 * i64::from(disp),
        _ => i64::from(disp),
    }
}

pub(crate) fn address_of(op: MemOp, base: u64, disp: i16) -> u64
    ensures { result ≡ accessed op (plus base disp) }
{
    let address = sum(base, i64::from(disp));
    match op {
        MemOp::LdqU => address / 8 * 8,
        MemOp::StqU => address / 8 * 8,
        _ => address,
    }
}

pub(crate) fn extend(op: MemOp, n: u64) -> u64
    ensures { result ≡ extended op n }
{
    match op {
        MemOp::Ldl => alu(AluOp::Add(Scale::One, Width::Long), n, 0),
        _ => n,
    }
}

pub(crate) fn displaced_by(place: u64, disp: Disp) -> u64
    ensures { result ≡ displaced place disp }
{
    let bytes = i64::from(disp.num()).cast_unsigned().wrapping_mul(4);
    place.wrapping_add(4).wrapping_add(bytes)
}
