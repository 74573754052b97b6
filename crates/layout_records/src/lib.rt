// Document 01, "Netlist and board machine": the records of a netlist, written and read, as `layout_rules` has them.
#![tactic(auto)]

pub mod little_endian; // little_endian.rt: little-endian numbers in lent bytes
pub mod places; // places.rt: the kinds, lengths and places of a netlist's records
pub mod write; // write.rt: a writer for each kind of record of a netlist
pub mod read; // read.rt: a reader of the fields of each kind
