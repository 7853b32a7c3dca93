ghost use Rattle.std.specs.Prelude.{◌≡◌, ◌+◌, ◌*◌, ◌%◌, ◌<◌, ◌≤◌};
ghost use Rattle.pol_modp.specs.Equations.{IsSmallPrime};

/// `a + k * b` modulo `p`. The moduli of eliminations stand as numbers, so that the compiler need not
/// divide.
pub fn plus_times(p: u8, a: u8, k: u8, b: u8) -> u8
    requires positive { 1 ≤ p }
    ensures sum { result ≡ (a + k * b) % p }
    ensures below { result < p }
{
    let sum = u32::from(a) + u32::from(k) * u32::from(b);
    let rest = match p {
        2 => sum % 2,
        3 => sum % 3,
        5 => sum % 5,
        _ => sum % u32::from(p),
    };
    rest as u8
}

/// The number that gives 1 with `a` modulo `p`.
pub fn inverse(p: u8, a: u8) -> u8
    requires prime { IsSmallPrime p }
    requires some { 1 ≤ a }
    requires below { a < p }
    ensures inverse { (result * a) % p ≡ 1 }
    ensures below { result < p }
{
    match (p, a) {
        (3, 2) => 2,
        (5, 2) => 3,
        (5, 3) => 2,
        (5, 4) => 4,
        _ => 1,
    }
}
