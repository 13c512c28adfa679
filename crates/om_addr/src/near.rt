// How far the pointers of loads lie from global pointers.
ghost use Rattle.std.specs.Prelude.{◌≡◌, ◌&&◌, ◌^◌, pos, negsuc, ◌+ℤ◌, ◌≤ℤ◌, int_le, IfSome};
ghost use Rattle.om_addr.specs.Loads.{HasPointer};
ghost use Rattle.om_addr.specs.Near.{is_small as small, IsSaid, IsTame, reaches_at, Differs, IsPointerAt};

use crate::loads::Load;
use om_layout::Layout;
use om_value::Target;

// No region is larger.
const MOST: u64 = 1 << 62;

// No pointer lies further from a global pointer.
const LIMIT: i64 = 1 << 62;

// A pointer that lies in its region or at its end.
#[derive(Clone, Copy)]
pub(crate) struct Pointer {
    // How far it lies behind the global pointer.
    pub(crate) distance: i64,
    // Bytes from the start of its region, and the size of the region.
    pub(crate) off: i64,
    pub(crate) size: i64,
}

// Whether 16 signed bits hold a number.
pub(crate) fn is_small(n: i64) -> bool
    ensures { result ≡ small n }
{
    -32768 <= n && n <= 32767
}

// A sum that does not wrap.
fn sum(a: i64, b: i16) -> i64
    requires above { negsuc (2 ^ 62) ≤ℤ a }
    requires below { a ≤ℤ pos (2 ^ 62) }
    ensures { result ≡ (a +ℤ b) }
{
    a + i64::from(b)
}

// Whether a number is from 0 to another.
fn is_within(n: i64, most: i64) -> bool
    ensures { result ≡ (int_le (pos 0) n && int_le n most) }
{
    0 <= n && n <= most
}

impl Pointer {
    // Whether the byte at a displacement from it is near, and lies in its region or at its end.
    pub(crate) fn reaches(&self, disp: i16) -> bool
        requires { IsTame self.now }
        ensures { result ≡ reaches_at self.now disp }
    {
        is_within(sum(self.off, disp), self.size) && is_small(sum(self.distance, disp))
    }
}

// How far an address lies behind a global pointer.
fn distance(address: u64, gp: u64) -> i64
    ensures { Differs address gp result }
{
    address.wrapping_sub(gp).cast_signed()
}

// A pointer at these numbers, where they are no larger than those of a layout.
fn tame(distance: i64, off: u64, size: u64) -> Option<Pointer>
    ensures tame { IfSome result IsTame }
    ensures some { IsPointerAt distance off size result }
{
    if off > size || size > MOST || distance < -LIMIT || distance > LIMIT {
        return None;
    }
    Some(Pointer {
        distance,
        off: off as i64,
        size: size as i64,
    })
}

// The pointer of a load, where it lies in its region or at its end.
pub(crate) fn pointer_of(load: &Load, lay: &Layout) -> Option<Pointer>
    ensures said { IsSaid lay.now load.now result }
    ensures tame { IfSome result IsTame }
    ensures pointer { IfSome result (λ at. HasPointer load.now) }
{
    let Target::Ptr { region, off } = load.target else {
        return None;
    };
    let away = distance(lay.address(load.target), lay.gp(load.obj));
    tame(away, off, lay.size(region))
}
