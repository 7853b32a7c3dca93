ghost use Rattle.std.specs.Prelude.{◌≡◌, ℕ, ◌+◌, ◌^◌, ◌<◌, length, All};
ghost use Rattle.std.specs.Bool.{OnTrue, OnFalse};
ghost use Rattle.pol_base.specs.Tuples.{cell_of};

/// Goes on to the next list of digits below `n`, in lexicographic order: the first digit is the most
/// significant. After the last list comes the first one, all zeros, and the answer is false.
pub fn advance(digits: &mut [u32], n: u32) -> bool
    requires below { All (λ v. v < n) digits.old }
    ensures below { All (λ v. v < n) digits.new }
    ensures next { OnTrue result (cell_of n digits.new ≡ cell_of n digits.old + 1) }
    ensures last { OnFalse result (cell_of n digits.old + 1 ≡ n ^ length digits.old) }
    ensures first { OnFalse result (cell_of n digits.new ≡ 0) }
{
    match digits.split_first_mut() {
        None => false,
        Some((first, rest)) => {
            if advance(rest, n) {
                true
            } else if *first + 1 < n {
                *first += 1;
                true
            } else {
                *first = 0;
                false
            }
        }
    }
}
