// What the programs print, as docs/SCRIPTS.md says: answers, states, texts and sums. Each type is a value with the way in which it is
// written, so that a line is one `writeln!`.
#![tactic(auto)]

pub mod answer;
mod item;
pub mod of_host;
pub mod of_port;
pub mod sum;
pub mod text;
