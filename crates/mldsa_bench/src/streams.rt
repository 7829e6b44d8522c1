//! XOFs of the tests, and what the library reads of XOFs.
#![tactic(auto)]

pub mod fronts;
pub mod input_chosen;
pub mod samplers;
pub mod written_fronts;
