// The host half: its record, its creation, and what its calls share. The calls are the crates `host_handshake`, `host_setup`, `host_send` and `host_take`.
// Every call is total: any word of SA, any memory, any stage gets an answer.
#![tactic(auto)]

pub mod create;
pub mod effect;
pub mod operation;
pub mod state;
