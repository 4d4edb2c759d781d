// A candidate's paper: a set text, a line that is a single dot, and the script.
#![tactic(auto)]

pub mod denial;
pub mod line;
pub mod paper;
#[cfg(test)]
mod tests;
