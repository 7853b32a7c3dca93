ghost use Rattle.pol_modp.specs.Laws.{ClashesRefute, ValidCombinationsHaveNoFault, FirstFaultsAreOne};

/// Multipliers of a clash show that no values meet the equations, whatever the modulus. The contract is all
/// there is; a call does nothing.
pub fn clash_laws()
    ensures refute { ClashesRefute }
{}

/// A combination has no first fault where it is valid, and never two. The contract is all there is; a call
/// does nothing.
pub fn fault_laws()
    ensures valid { ValidCombinationsHaveNoFault }
    ensures one { FirstFaultsAreOne }
{}
