use pol_base::{ClassName, Numbers, Values};
use pol_modp::Combination;
use pol_nogood::Log;

/// An item of a report: the line of a class, or the answer of an instance.
#[derive(Debug, Drop)]
pub enum Item {
    /// The cells of the class's table.
    ClassTable {
        kind: ClassName,
        cells: Values,
    },
    /// No table of the class preserves the language.
    ClassNone {
        kind: ClassName,
    },
    /// A table of the class `nu4` was not sought.
    ClassBeyond,
    /// A solution, found by the method of the class.
    Yes {
        name: Values,
        kind: ClassName,
        values: Values,
    },
    /// A solution, found by the method of the class `maltsev`, with the sizes of its run.
    YesSizes {
        name: Values,
        values: Values,
        sizes: Numbers,
    },
    /// A log that shows that there is no solution.
    NoLog {
        name: Values,
        kind: ClassName,
        log: Log,
    },
    /// A combination that shows that there is no solution, found by the method of the class `affine`.
    NoSum {
        name: Values,
        combination: Combination,
    },
    /// There is no solution, by the method of the class `maltsev`; the sizes of its run.
    NoSizes {
        name: Values,
        sizes: Numbers,
    },
    /// The instance is not answered.
    Undecided {
        name: Values,
    },
}
