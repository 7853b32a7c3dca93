ghost use Rattle.pol_rows.specs.Laws.{SizeCountsTriples, SizeIsOne, ShownIsInSignature, LeastPairIsOne};

/// The size of a signature is the number of its triples, each counted once, and rows have one size. A
/// triple is in the signature exactly where the numbers of two rows show it, and has at most one least
/// pair. The contract is all there is; a call does nothing.
pub fn signature_laws()
    ensures counts { SizeCountsTriples }
    ensures one { SizeIsOne }
    ensures shown { ShownIsInSignature }
    ensures least { LeastPairIsOne }
{}
