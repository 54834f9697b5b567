// The scripts of docs/SCRIPTS.md: a line of one taken apart into the call that it names, with its numbers and its text, or the reason
// why it is no call. Every function is total: any bytes are a script.
#![tactic(auto)]

mod line;
pub mod order;
pub mod reason;
pub mod value;
