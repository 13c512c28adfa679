// Small tests that several passes use.
ghost use Rattle.std.specs.Prelude.{◌≡◌, ◌||◌, is_some};

/// Whether one of two holds.
pub fn either(a: bool, b: bool) -> bool
    ensures { result ≡ (a || b) }
{
    a || b
}

/// Whether something was found.
pub fn is_there<T: Copy>(found: Option<T>) -> bool
    ensures { result ≡ is_some found }
{
    found.is_some()
}
