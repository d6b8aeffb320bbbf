//! Relations as CSV: the rows that a text of records has, and the text of rows.
#![tactic(auto)]

mod fields;
mod laws;
mod reading;
mod row_list;
mod writing;

pub use laws::what_is_written_is_read_back;
pub use reading::{CsvFault, read_rows};
pub use writing::write_rows;
