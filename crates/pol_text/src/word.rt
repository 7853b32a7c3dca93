ghost use Rattle.std.specs.Prelude.{◌≡◌};
ghost use Rattle.pol_text.specs.Refusals.{word_text};

/// Why a text is refused. The tables of docs/FORMATS.md say at which line each is told, and what it asks for.
#[derive(Clone, Copy, Debug, PartialEq, Eq)]
pub enum Word {
    /// The first significant line does not begin with the keyword of such a text, or there is none.
    NoHeader,
    BadVersion,
    BadDomain,
    /// The line may not stand there, or its tokens are not those of such a line.
    BadLine,
    BadNumber,
    BadName,
    RepeatedName,
    /// A relation may not have this arity, or a constraint has not as many variables as its relation has places.
    BadArity,
    /// A number is too large for a value.
    ValueOutside,
    ShortTuple,
    LongTuple,
    TooManyRelations,
    TooManyTuples,
    TooManyInstances,
    TooManyVariables,
    TooManyConstraints,
    /// The cubes of the numbers of tuples sum to more than their limit.
    TripleLimit,
    /// The numbers of vectors of nonempty sets of values sum to more than their limit.
    SubsetLimit,
    UnknownRelation,
    UnknownVariable,
    /// The text ends before its `end` line.
    Ended,
    /// A significant line stands behind the `end` line.
    AfterEnd,
    TooManyItems,
    TooManySteps,
    TooManyParts,
    /// The text has too many bytes.
    TooLong,
}

impl Word {
    /// The word as it is printed.
    pub fn text(self) -> &'static [u8]
        ensures text { result.now ≡ word_text self }
    {
        match self {
            Word::NoHeader => b"NoHeader",
            Word::BadVersion => b"BadVersion",
            Word::BadDomain => b"BadDomain",
            Word::BadLine => b"BadLine",
            Word::BadNumber => b"BadNumber",
            Word::BadName => b"BadName",
            Word::RepeatedName => b"RepeatedName",
            Word::BadArity => b"BadArity",
            Word::ValueOutside => b"ValueOutside",
            Word::ShortTuple => b"ShortTuple",
            Word::LongTuple => b"LongTuple",
            Word::TooManyRelations => b"TooManyRelations",
            Word::TooManyTuples => b"TooManyTuples",
            Word::TooManyInstances => b"TooManyInstances",
            Word::TooManyVariables => b"TooManyVariables",
            Word::TooManyConstraints => b"TooManyConstraints",
            Word::TripleLimit => b"TripleLimit",
            Word::SubsetLimit => b"SubsetLimit",
            Word::UnknownRelation => b"UnknownRelation",
            Word::UnknownVariable => b"UnknownVariable",
            Word::Ended => b"Ended",
            Word::AfterEnd => b"AfterEnd",
            Word::TooManyItems => b"TooManyItems",
            Word::TooManySteps => b"TooManySteps",
            Word::TooManyParts => b"TooManyParts",
            Word::TooLong => b"TooLong",
        }
    }
}
