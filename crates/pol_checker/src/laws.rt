ghost use Rattle.pol_checker.specs.Laws.{VerdictIsOne, NamedIsOne, UnknownIsAbsent, SizeIsOfCells};
ghost use Rattle.pol_checker.specs.Laws.{TablesAreOfTheirClass, YesIsASolution, YesSizesIsASolution, LogsRefute, SumsRefute};

/// An item has one verdict at most, and a name one instance; which answers are unknown, and which tables
/// have another size than those of their class.
pub fn verdict_laws()
    ensures one { VerdictIsOne }
    ensures named { NamedIsOne }
    ensures unknown { UnknownIsAbsent }
    ensures size { SizeIsOfCells }
{}

/// What is accepted is what it says: a table of its class, a solution, or a proof that there is none.
pub fn acceptance_laws()
    ensures table { TablesAreOfTheirClass }
    ensures yes { YesIsASolution }
    ensures yes_sizes { YesSizesIsASolution }
    ensures log { LogsRefute }
    ensures combination { SumsRefute }
{}
