// Registers as bits.
ghost use Rattle.std.specs.Prelude.{◌≡◌, ◌<◌, ◌==◌, ℕ, ◌∷◌, [], Some, IfSome};
ghost use Rattle.std.specs.Int.{bit_at};
ghost use Rattle.om_isa.specs.Registers.{mask_of};

// Whether a mask has a register.
pub(crate) fn has(mask: u32, r: u32) -> bool
    requires { r < 32 }
    ensures { result ≡ (bit_at mask r == 1) }
{
    (mask >> r) % 2 == 1
}

// The lowest register of a mask.
pub(crate) fn lowest(mask: u32) -> Option<u32>
    ensures range { IfSome result (λ r. r < 31) }
    ensures one { (r : ℕ) → r < 31 → mask ≡ mask_of (r ∷ []) → result ≡ Some r }
{
    for r in 0..31 {
        if has(mask, r) {
            return Some(r);
        }
    }
    None
}
