ghost use Rattle.pol_nogood.specs.Laws.{ValidStepsRefute, OnePairLogsAreShort, ThreePairLogsAreShort};
ghost use Rattle.pol_nogood.specs.Laws.{ValidLogsHaveNoFault, FirstFaultsAreOne};

/// No solution holds the nogood of a valid step, and a log without repeats is not longer than there are
/// nogoods.
pub fn log_laws()
    ensures refute { ValidStepsRefute }
    ensures one_pair { OnePairLogsAreShort }
    ensures three_pairs { ThreePairLogsAreShort }
{}

/// A log has no first fault where it is valid, and never two.
pub fn fault_laws()
    ensures valid { ValidLogsHaveNoFault }
    ensures one { FirstFaultsAreOne }
{}
