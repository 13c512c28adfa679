// Where sections lie in the address space, and whether two of them get in each other's way.
ghost use Rattle.std.specs.Prelude.{◌≡◌, ◌+◌, ◌<◌, ◌||◌, ℕ, is_none, OnOk, OnErr};
ghost use Rattle.om_fields.specs.Extents.{shares as shares_address, both_loaded, collide as collides_with, ends_late as is_late, collides as collides_with_some, is_misplaced, StandFor};

use om_io::NoMemory;

/// Where a section lies. Its end, `addr + size`, may be any number below 2^65.
#[derive(Clone, Copy, PartialEq, Eq, Debug)]
pub struct Extent {
    /// The section's number, if it is a loaded one; else it lies in nobody's way.
    pub number: Option<u8>,
    /// The address of its first byte.
    pub addr: u64,
    /// Its size in bytes.
    pub size: u64,
}

// Whether the `n` addresses from `a` on and the `m` addresses from `b` on have one in common.
fn shares(a: u64, n: u64, b: u64, m: u64) -> bool
    ensures { result ≡ shares_address a n b m }
{
    if n == 0 {
        return false;
    }
    if m == 0 {
        return false;
    }
    if u128::from(a) >= u128::from(b) + u128::from(m) {
        return false;
    }
    u128::from(b) < u128::from(a) + u128::from(n)
}

// Whether both are loaded, and have one number or an address in common.
fn collide(s: &Extent, t: &Extent) -> bool
    ensures { result ≡ collides_with s.now t.now }
{
    match s.number {
        None => false,
        Some(n) => match t.number {
            None => false,
            Some(m) => {
                if n == m {
                    return true;
                }
                shares(s.addr, s.size, t.addr, t.size)
            }
        },
    }
}

// Whether a section collides with one of these.
fn collides(earlier: &[Extent], t: &Extent) -> bool
    ensures { result ≡ collides_with_some earlier.now t.now }
{
    earlier.iter().any(|s| collide(s, t))
}

// Whether a loaded section ends past 2^63.
fn ends_late(s: &Extent) -> bool
    ensures { result ≡ is_late s.now }
{
    if s.number.is_none() {
        return false;
    }
    u128::from(s.addr) + u128::from(s.size) > 0x8000_0000_0000_0000
}

/// Whether a section is a loaded one and out of place: it ends past 2^63, or one of `loaded`, which stand for the earlier
/// sections, has its number or an address in common with it. An empty section has no address, but it has a number and an
/// end.
pub fn is_out_of_place(loaded: &[Extent], t: &Extent) -> bool
    ensures { result ≡ (is_late t.now || collides_with_some loaded.now t.now) }
{
    if ends_late(t) {
        return true;
    }
    collides(loaded, t)
}

// Whether a section is not loaded.
fn is_unloaded(t: &Extent) -> bool
    ensures { result ≡ is_none t.now.number }
{
    t.number.is_none()
}

/// Adds a section to those that stand for the earlier ones, if it is a loaded one. As long as none is out of place, at most
/// ten are kept, as many as there are numbers of loaded sections. After `NoMemory` those that are kept are as before.
pub fn add_loaded(loaded: &mut Vec<Extent>, t: Extent) -> Result<(), NoMemory>
    ensures stands { (extent : ℕ → Extent) → (k : ℕ) → StandFor extent k loaded.old.items → extent k ≡ t → OnOk result (StandFor extent (k + 1) loaded.new.items) }
    ensures err { OnErr result (loaded.new.items ≡ loaded.old.items) }
{
    if is_unloaded(&t) {
        return Ok(());
    }
    loaded.push(t)?;
    Ok(())
}
