//! Lines, tokens, numbers and names of a text, and the refusals of texts.
#![tactic(auto)]

mod decimals;
mod lines;
mod names;
mod refusal;
mod text;
mod tokens;
mod word;

pub use decimals::{number, put_number, put_numbers, put_spaced, put_values};
pub use lines::{Line, Lines, count_lines, significant};
pub use names::is_name;
pub use refusal::{LineFail, ReadFail, Refusal, put_refusal};
pub use text::Text;
pub use tokens::{Tokens, put_token};
pub use word::Word;
