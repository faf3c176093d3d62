//! The lines and sections of a listing.
#![tactic(auto)]

mod columns;
mod dates;
mod faults;
mod fields;
mod laws;
mod line;
mod numbers;
mod ordering;
mod reading;
mod switches;
mod writing;

pub use dates::minute_of;
pub use faults::{Field, LineFault};
pub use fields::{arrow_place, behind_space};
pub use laws::{dates_come_back, lines_are_the_grammar, lines_come_back};
pub use line::{Line, Widths};
pub use numbers::read_number;
pub use ordering::order;
pub use reading::{Head, read_head, read_line, read_name, read_target};
pub use switches::{Switches, read_switches};
pub use writing::{header_text, line_text, section_text};
