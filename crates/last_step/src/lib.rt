// The last step of a path, taken for all outcomes of the state before it at once: which nodes matter there (`late`), words with a bit for
// each outcome (`lanes`), and the word of each node (`masks`).
#![tactic(auto)]

pub mod lanes;
pub mod late;
pub mod masks;
