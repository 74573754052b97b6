// Document 01, "Netlist and board machine": the operations and the outputs of a netlist, by value. Rests on `limits`,
// `lists` and `layout_rules`.
#![tactic(auto)]

pub mod operations; // operations.rt: the operations
pub mod outputs; // outputs.rt: the outputs
