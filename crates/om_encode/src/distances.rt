// Distances between addresses, and their parts.
ghost use Rattle.std.specs.Prelude.{◌≡◌, ◌<◌, ◌≤◌, ◌^◌, ℤ, pos, ◌-ℤ◌, ◌≤ℤ◌, SomeIff};
ghost use Rattle.om_isa.specs.Fields.{IsDisp};
ghost use Rattle.om_encode.specs.Halves.{high_part as high_of};
ghost use Rattle.om_encode.specs.Fitting.{low_part as low_of};

use om_isa::Disp;

/// How many bytes an address lies behind another.
pub(crate) fn distance(from: u64, to: u64) -> i64
    requires from { from < 2 ^ 48 }
    requires to { to < 2 ^ 48 }
    ensures { result ≡ pos to -ℤ pos from }
{
    (to as i64) - (from as i64)
}

/// The high part of a distance, in units of 65536: what is left has 16 signed bits.
pub(crate) fn high_part(distance: i64) -> i64
    requires { distance ≤ℤ pos 1125899906842624 }
    ensures { result ≡ high_of distance }
{
    (distance + 32768).div_euclid(65536)
}

/// The displacement of a branch from one image word to another, or `None` exactly where it is too far.
pub(crate) fn branch_disp(at: u32, to: u32) -> Option<Disp>
    requires at { at < 2 ^ 24 }
    requires to { to < 2 ^ 24 }
    ensures { SomeIff result (IsDisp ((pos to -ℤ pos at) -ℤ pos 1)) ((pos to -ℤ pos at) -ℤ pos 1) }
{
    Disp::new((to as i32) - (at as i32) - 1)
}
