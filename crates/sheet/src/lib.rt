// The trainee's sheet: its lines, and what each says.
#![tactic(auto)]

mod cursor;
pub mod lines;
pub mod parse;
pub mod reader;
