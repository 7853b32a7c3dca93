ghost use Rattle.pol_setfn.specs.Laws.{FoldPreserves};

/// The fold of a semilattice operation preserves each relation that the operation preserves. A call does
/// nothing.
pub fn fold_laws()
    ensures preserves { FoldPreserves }
{}
