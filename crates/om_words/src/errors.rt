// Why there is no command.
use om_io::NoMemory;

/// Why words give no command.
#[derive(Clone, Copy, PartialEq, Eq, Debug)]
pub enum WordsErr {
    /// They are no sentence. The place, counted from 1, is that of the first word with which no sentence goes on, or the one
    /// behind the words where they begin a sentence and stop.
    Usage { at: u64 },
    /// Memory ran out.
    NoMemory,
}

impl From<NoMemory> for WordsErr {
    ghost use Rattle.std.specs.Prelude.{◌≡◌};
    ghost use Rattle.om_words.specs.declared.errors.WordsErr.TheVariants.{NoMemory};

    ghost from_gives = { λ _ e. e ≡ NoMemory };

    fn from(_: NoMemory) -> Self {
        WordsErr::NoMemory
    }
}
