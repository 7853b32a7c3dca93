//! Domains, cells, names of classes, and the plain lists that everything above is made of.
#![tactic(auto)]

mod class_name;
mod counting;
mod domain;
mod masks;
mod no_memory;
mod numbering;
mod numbers;
mod values;

pub use class_name::{ClassName, class_of};
pub use counting::advance;
pub use domain::Domain;
pub use masks::{full_mask, has_value, lowest_value, value_mask, without};
pub use no_memory::NoMemory;
pub use numbering::{cell_of, cells, digit, inverse_laws};
pub use numbers::Numbers;
pub use values::Values;
