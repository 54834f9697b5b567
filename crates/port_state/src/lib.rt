// The port half: its record, its creation, and what its calls share. The calls are the crates `port_registers`, `port_fetch` and `port_post`.
// Every call is total: any register word, any memory, any stage gets an answer.
#![tactic(auto)]

pub mod create;
pub mod effect;
pub mod operation;
pub mod state;
pub mod tail;
