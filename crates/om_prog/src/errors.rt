// Why parts are no program.
use om_io::NoMemory;

/// Why parts are no program.
#[derive(Clone, Copy, PartialEq, Eq, Debug)]
pub enum ProgErr {
    /// They are none.
    Bad,
    /// Memory ran out.
    NoMemory,
}

impl From<NoMemory> for ProgErr {
    ghost use Rattle.std.specs.Prelude.{◌≡◌};
    ghost use Rattle.om_prog.specs.declared.errors.ProgErr.TheVariants.{NoMemory};

    ghost from_gives = { λ _ e. e ≡ NoMemory };

    fn from(_: NoMemory) -> Self {
        ProgErr::NoMemory
    }
}
