ghost use Rattle.std.specs.Prelude.{◌↔◌, IsTrue};
ghost use Rattle.pol_optable.specs.Choices.{HasTable, FirstFound};

use crate::{OpTable, SetFn};
use pol_base::ClassName;

/// The classes in the order in which they are tried.
pub const CLASSES: [ClassName; 7] = [
    ClassName::Constant,
    ClassName::Semilattice,
    ClassName::SetFunction,
    ClassName::Majority,
    ClassName::Nu4,
    ClassName::Affine,
    ClassName::Maltsev,
];

/// What was found of the class `nu4` for a language.
#[derive(Debug, Drop)]
pub enum Nu4 {
    /// The language is too large to seek: the fourth powers of its numbers of rows sum to more than 2^21.
    Beyond,
    /// No table was found.
    Absent,
    /// A table of the class.
    Found(OpTable<4>),
}

/// What was found of each class for a language: a table, or none. That the tables are those of their
/// classes, or the least ones, is for the contracts of the calls that make or take it to say.
#[derive(Debug, Drop)]
pub struct Classes {
    /// f(x) = f(y).
    pub constant: Option<OpTable<1>>,
    /// f(x, x) = x, f(x, y) = f(y, x) and f(x, f(y, z)) = f(f(x, y), z).
    pub semilattice: Option<OpTable<2>>,
    /// The set function, of the class `set-function`.
    pub setfn: Option<SetFn>,
    /// Near-unanimity of three arguments.
    pub majority: Option<OpTable<3>>,
    /// Near-unanimity of four arguments.
    pub nu4: Nu4,
    /// x - y + z modulo the size of the domain, under some labels of the values.
    pub affine: Option<OpTable<3>>,
    /// f(x, y, y) = f(y, y, x) = x.
    pub maltsev: Option<OpTable<3>>,
}

impl Classes {
    /// The first class that has a table, in the order of the classes. None exactly where none has one.
    pub fn first(&self) -> Option<ClassName>
        ensures first { FirstFound self.now result }
    {
        for class in CLASSES {
            if self.has_table(class) {
                return Some(class);
            }
        }
        None
    }

    /// Whether a table of the class was found. Of `nu4`, `Beyond` and `Absent` are none.
    pub fn has_table(&self, class: ClassName) -> bool
        ensures table { IsTrue result ↔ HasTable self.now class }
    {
        match class {
            ClassName::Constant => self.constant.is_some(),
            ClassName::Semilattice => self.semilattice.is_some(),
            ClassName::SetFunction => self.setfn.is_some(),
            ClassName::Majority => self.majority.is_some(),
            ClassName::Nu4 => matches!(self.nu4, Nu4::Found(_)),
            ClassName::Affine => self.affine.is_some(),
            ClassName::Maltsev => self.maltsev.is_some(),
        }
    }
}
