//! Operations on a domain by their tables, the classes of operations, and the line of a class for a
//! language.
#![tactic(auto)]

mod breaking;
mod classes;
mod laws;
mod part_table;
mod row_set;
mod set_breaking;
mod set_fn;
mod sizes;
mod table;
mod value_rows;

pub use classes::{CLASSES, Classes, Nu4};
pub use laws::{choice_laws, constant_laws, line_laws, table_laws};
pub use part_table::PartTable;
pub use row_set::{RowMarks, RowSet};
pub use set_fn::SetFn;
pub use table::OpTable;
pub use value_rows::{ValueMarks, ValueRows};
