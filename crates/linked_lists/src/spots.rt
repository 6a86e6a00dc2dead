//! An id or none, in four bytes.

ghost use Rattle.std.specs.Prelude.{◌≡◌, ◌<◌, None, Some, IfSome};

use std::marker::Model;

/// An id below 2^32 - 1, or none. Contracts see it as an option.
#[derive(Clone, Copy)]
pub struct Spot {
    raw: u32,
}

impl Model for Spot {
    ghost use Rattle.std.specs.Prelude.{ℕ, Option};

    ghost Value = { Option ℕ };

    ghost use Rattle.linked_lists.specs.Spots.{spot_of, raw_of, raw_back};

    ghost view = { spot_of };

    ghost inverse = { raw_of };

    ghost inverse_ok = { λ s _. raw_back s };
}

impl Spot {
    /// This id, if there is one.
    pub fn of(id: Option<u32>) -> Spot
        requires { IfSome id (λ id. id < 4294967295) }
        ensures { result ≡ id }
    {
        match id {
            Some(raw) => Spot { raw },
            None => Spot { raw: 4_294_967_295 },
        }
    }

    /// The id, if there is one.
    pub fn id(self) -> Option<u32>
        ensures { result ≡ self }
    {
        if self.raw == 4_294_967_295 {
            return None;
        }
        Some(self.raw)
    }
}
