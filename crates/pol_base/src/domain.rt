ghost use Rattle.std.specs.Prelude.{◌≡◌, ℕ, ◌<◌, ◌⊎◌, ◌↔◌, IsNone, IfSome};
ghost use Rattle.pol_base.specs.Tuples.{IsDomain};

use std::marker::Model;

/// The size of a domain, from 1 to 5. The values of the domain are the numbers below it.
#[derive(Clone, Copy, Debug, PartialEq, Eq)]
pub struct Domain {
    size: u8,
}

impl Model for Domain {
    ghost Value = { ℕ };

    ghost view = { λ d. d.size };

    ghost invariant = { λ d. IsDomain d.size };

    ghost inverse = { λ n. record { size = n } };
}

impl Domain {
    /// The domain of `n` values. None exactly where `n` is below 1 or above 5.
    pub fn new(n: u32) -> Option<Domain>
        ensures none { IsNone result ↔ ((n < 1) ⊎ (5 < n)) }
        ensures size { IfSome result (λ d. d ≡ n) }
    {
        if 1 <= n && n <= 5 {
            Some(Domain { size: n as u8 })
        } else {
            None
        }
    }

    /// How many values there are, from 1 to 5.
    pub fn size(self) -> u8
        ensures size { result ≡ self }
        ensures within { IsDomain self }
    {
        self.size
    }
}
