// Changes of a tree of pieces: a run put in, a part taken out, kept runs put back.
#![tactic(auto)]

mod edits;

pub use edits::{insert_run, keep_runs, put_back, take_out};
