//! Whole runs of a customer as the definitions have it, computed: `specs/` has what comes on its
//! lines and what it sends. The code of njh_customer does what the definitions say, by its
//! proof, for whatever comes.
//!
//! They are a crate of their own, since a crate with tests is proved twice.
#![tactic(auto)]
