ghost use Rattle.pol_identity.specs.Laws.{ConstantByRules, NearUnanimityByRules, MaltsevByRules};
ghost use Rattle.pol_identity.specs.Laws.{SemilatticeByRules, ForcedIsMost};
ghost use Rattle.pol_identity.specs.Laws.{AffineByRules, AffineByLabels, LabelsTellTheTable, AffineIsMaltsev};

/// A table satisfies an identity exactly where each of its cells obeys its rule, and where it is associative
/// too, for semilattice operations. Labels tell an affine table, which is one of a Mal'tsev operation. A call
/// does nothing.
pub fn identity_laws()
    ensures constant { ConstantByRules }
    ensures near_unanimity { NearUnanimityByRules }
    ensures maltsev { MaltsevByRules }
    ensures semilattice { SemilatticeByRules }
    ensures affine { AffineByRules }
    ensures affine_labels { AffineByLabels }
    ensures labels_tell { LabelsTellTheTable }
    ensures affine_maltsev { AffineIsMaltsev }
    ensures forced { ForcedIsMost }
{}
