// Reports straight from the places of a table: one pass links the selected places of each type into a chain, and the writer follows the chains.
// From `interrogation_data_asdus` of `output.rs`: thirty typed buckets become one chain for each type.
#![tactic(auto)]

pub mod link;
pub mod write;
