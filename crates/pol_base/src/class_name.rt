ghost use Rattle.std.specs.Prelude.{◌≡◌, ◌≢◌, IfSome, IfNone};
ghost use Rattle.pol_base.specs.declared.class_name.ClassName.{ClassName};
ghost use Rattle.pol_base.specs.Names.{class_word};

/// A class of closure operations: those that satisfy certain identities, or the set functions. Declared in
/// the order in which classes are tried.
#[derive(Clone, Copy, Debug, PartialEq, Eq)]
pub enum ClassName {
    /// f(x) = f(y), of one argument. (P. Jeavons, D. Cohen and M. Gyssens, Closure properties of
    /// constraints, Journal of the ACM 44, 1997.)
    Constant,
    /// f(x, x) = x, f(x, y) = f(y, x) and f(x, f(y, z)) = f(f(x, y), z). From the same paper.
    Semilattice,
    /// A value for each nonempty set of values. (V. Dalmau and J. Pearson, Closure functions and width 1
    /// problems, CP 1999.)
    SetFunction,
    /// Near-unanimity of three arguments. (P. Jeavons, D. Cohen and M. Cooper, Constraints, consistency
    /// and closure, Artificial Intelligence 101, 1998.)
    Majority,
    /// Near-unanimity of four arguments. From the same paper.
    Nu4,
    /// x - y + z modulo the size of the domain, which is 2, 3 or 5, under some labels of the values.
    /// (Jeavons, Cohen and Gyssens, 1997.)
    Affine,
    /// f(x, y, y) = f(y, y, x) = x. (A. Bulatov and V. Dalmau, A simple algorithm for Mal'tsev
    /// constraints, SIAM Journal on Computing 36, 2006.)
    Maltsev,
}

const ALL: [ClassName; 7] = [
    ClassName::Constant,
    ClassName::Semilattice,
    ClassName::SetFunction,
    ClassName::Majority,
    ClassName::Nu4,
    ClassName::Affine,
    ClassName::Maltsev,
];

impl ClassName {
    /// The word of the class in a text, as ASCII: its name in lower case, `set-function` with a hyphen.
    pub fn word(self) -> &'static [u8]
        ensures word { result.now ≡ class_word self }
    {
        match self {
            ClassName::Constant => b"constant",
            ClassName::Semilattice => b"semilattice",
            ClassName::SetFunction => b"set-function",
            ClassName::Majority => b"majority",
            ClassName::Nu4 => b"nu4",
            ClassName::Affine => b"affine",
            ClassName::Maltsev => b"maltsev",
        }
    }
}

/// The class that has the word, compared byte by byte. None exactly where no class has it.
pub fn class_of(word: &[u8]) -> Option<ClassName>
    ensures found { IfSome result (λ name. word.now ≡ class_word name) }
    ensures none { IfNone result ((class : ClassName) → word.now ≢ class_word class) }
{
    for name in ALL {
        if name.word() == word {
            return Some(name);
        }
    }
    None
}
