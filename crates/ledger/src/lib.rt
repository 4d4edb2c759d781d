// The words that a document and a session share. The rules that a document keeps stand in specs/: what text, marks and
// versions are after any calls, what every call answers, and which number denies it.
#![tactic(auto)]

pub mod denial;
pub mod laws;
pub mod words;
