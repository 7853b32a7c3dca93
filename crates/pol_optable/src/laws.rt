ghost use Rattle.pol_optable.specs.Laws.{LineIsOne, BeyondIsNu4Alone};
ghost use Rattle.pol_optable.specs.Laws.{ConstantLineFound, ConstantLineNone, ConstantLineTells};
ghost use Rattle.pol_optable.specs.Laws.{TableIsLong, MajorityTable};
ghost use Rattle.pol_optable.specs.Laws.{ChoiceIsOne, EarlierIsChosen, OtherIsPassedOver};
ghost use Rattle.pol_optable.specs.Laws.{FoundIsChosen, ConstantIsChosen, NoneIsChosen};

/// A language has at most one line of each class. Only that of `nu4` is ever `beyond`, exactly where the
/// fourth powers of the numbers of rows sum to more than 2^21. A call does nothing.
pub fn line_laws()
    ensures line { LineIsOne }
    ensures beyond { BeyondIsNu4Alone }
{}

/// The line of the class `constant` is what the rows alone say: the least value such that each relation is
/// empty or has the row of it throughout, and none where there is no such value. A call does nothing.
pub fn constant_laws()
    ensures found { ConstantLineFound }
    ensures none { ConstantLineNone }
    ensures tells { ConstantLineTells }
{}

/// A language has at most one chosen class, the first that serves, and what `Classes::first` answers is it
/// where the line of each class was found. A call does nothing.
pub fn choice_laws()
    ensures choice { ChoiceIsOne }
    ensures earlier { EarlierIsChosen }
    ensures passed_over { OtherIsPassedOver }
    ensures found { FoundIsChosen }
    ensures constant { ConstantIsChosen }
    ensures none { NoneIsChosen }
{}

/// A table of a class has a cell for each tuple of arguments, or for each nonempty set of values, and one of
/// `majority` has the equations of a majority operation. A call does nothing.
pub fn table_laws()
    ensures cells { TableIsLong }
    ensures majority { MajorityTable }
{}
