// The words of the storage port, taken apart and built with shifts and masks.
// The fields' places and meanings are those of specs/Fields.antt, the words' those of specs/Words.antt.
#![tactic(auto)]

pub mod descriptor;
pub mod field;
pub mod header;
pub mod hostword;
pub mod readback;
pub mod shown;
