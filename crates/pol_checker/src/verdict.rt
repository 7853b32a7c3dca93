use pol_modp::CombFault;
use pol_nogood::LogFault;

/// Why an item is rejected.
#[derive(Clone, Copy, Debug, PartialEq, Eq)]
pub enum Cause {
    /// No instance of the file has the name.
    Unknown,
    /// The cells are not as many as a table of the class has, or one is no value of the domain.
    Size,
    /// The identities of the class fail.
    Identity,
    /// The first relation that the table does not preserve.
    Breaks { relation: u32 },
    /// The values are not as many as the variables, or one is no value of the domain.
    Assignment,
    /// The first constraint that is not met.
    Constraint { c: u32 },
    /// The first fault of the log.
    BadLog(LogFault),
    /// The first fault of the combination.
    BadSum(CombFault),
}

/// What is found of an item of a report.
#[derive(Clone, Copy, Debug, PartialEq, Eq)]
pub enum Verdict {
    /// What the item holds is what it says.
    Accepted,
    /// The item holds nothing that could be checked.
    Unchecked,
    /// What the item holds is not what it says.
    Rejected(Cause),
}
