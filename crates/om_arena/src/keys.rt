//! A key that may be absent, in 32 bits.
ghost use Rattle.std.specs.Prelude.{◌≡◌, ◌<◌, Some, None};
ghost use Rattle.om_arena.specs.Keyed.{key_count};

use std::marker::Model;

// A key, or none.
#[derive(Clone, Copy)]
pub(crate) struct MaybeKey {
    // One more than the key, or 0 for none.
    code: u32,
}

impl Model for MaybeKey {
    ghost use Rattle.std.specs.Prelude.{ℕ, Option};

    ghost Value = { Option ℕ };

    ghost use Rattle.om_arena.specs.KeyCode.{key_of, code_of, code_back};
    ghost use Rattle.std.proofs.Common.{ap};

    ghost view = { λ k. key_of k.code };

    ghost inverse = { λ k. record { code = code_of k } };

    ghost inverse_ok = { λ k _. ap (λ (n : ℕ). record { code = n }) (code_back k.code) };
}

impl MaybeKey {
    pub(crate) const NONE: MaybeKey = MaybeKey { code: 0 };

    pub(crate) fn of(key: u32) -> MaybeKey
        requires { key < key_count }
        ensures { result ≡ Some key }
    {
        MaybeKey { code: key + 1 }
    }

    pub(crate) fn get(self) -> Option<u32>
        ensures { result ≡ self }
    {
        match self.code {
            0 => None,
            code => Some(code - 1),
        }
    }
}
