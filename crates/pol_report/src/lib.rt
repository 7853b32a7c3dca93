//! Reports: their items, the text of each, and the reading of a text.
#![tactic(auto)]

mod certificate_lines;
mod first_lines;
mod further_lines;
mod item;
mod items;
mod limits;
mod opening;
mod part_lines;
mod piece;
mod printing;
mod reading;
mod sending;
mod step_lines;
mod taking;
mod text;

pub use item::Item;
pub use items::Items;
pub use limits::printable;
pub use printing::{put_head, put_item, put_last};
pub use reading::read_items;
pub use sending::{send_head, send_item, send_last};
