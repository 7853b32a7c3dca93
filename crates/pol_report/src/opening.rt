use crate::Item;
use pol_base::{ClassName, Values};

/// What the first line of an item says: the whole item, or what the lines behind it have to be.
#[derive(Debug, Drop)]
pub(crate) enum Opening {
    Whole(Item),
    /// So many steps of a log.
    Steps {
        name: Values,
        kind: ClassName,
        count: u32,
    },
    /// So many parts of a combination.
    Parts {
        name: Values,
        labels: Values,
        count: u32,
    },
    /// The sizes of a Yes of the class `maltsev`.
    SizesOfYes {
        name: Values,
        values: Values,
    },
    /// The sizes of a No of the class `maltsev`.
    SizesOfNo {
        name: Values,
    },
}

/// What an item is about.
#[derive(Clone, Copy, Debug, PartialEq, Eq)]
pub(crate) enum Subject {
    Class,
    Instance,
}

/// What an item says of its instance.
#[derive(Clone, Copy, Debug, PartialEq, Eq)]
pub(crate) enum Answer {
    Undecided,
    Yes,
    No,
}

/// What a step rests on.
#[derive(Clone, Copy, Debug, PartialEq, Eq)]
pub(crate) enum RestsOn {
    Constraint,
    Variable,
}
