// The marks of a text, named a to z: how an insert and a delete move one, and the table of all 26.
#![tactic(auto)]

pub mod moving;
pub mod table;
