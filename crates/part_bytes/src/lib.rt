//! The bytes in which a part of a session's state is written: some names, their values and the objects that they reach.
//!
//! Objects are numbered in the order in which the names reach them first, so a part has one text, whatever the
//! addresses of its objects are. In version 1 of the format each text of the part is in it; in version 2 there is a number in its place, of a
//! table of texts (`TextTable`).
#![tactic(auto)]

mod laws;
mod length;
mod numbers;
mod objects;
mod part;
mod spelling;
mod table;
pub mod tag;
mod texts;
mod values;
mod write;

pub use laws::{the_order_is_that_of_first_reach, the_text_of_a_small_part};
pub use length::{part_len, part_size};
pub use numbers::Numbers;
pub use part::PartValue;
pub use spelling::Spelling;
pub use table::TextTable;
pub use texts::add_part_texts;
pub use values::{write_count, write_four, write_text, write_text_number};
pub use write::{write_names, write_numbered_part, write_part, write_part2};
