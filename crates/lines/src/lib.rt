// The lines of the program `rehearse` (paper 01): what a line means, what it gives on a book, and what is printed.
#![tactic(auto)]

mod answering;
mod printing;
mod reading;
pub mod steps;
