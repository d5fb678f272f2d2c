// The rows of a line: key, place, size triples, or keys alone, in hexadecimal numbers.
#![tactic(auto)]

mod digits; // hexadecimal numbers
mod rows; // keys alone, or triples

pub use rows::read_rows;
