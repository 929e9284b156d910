//! Tests of turns and of a service over wires in memory, with a keeper and an attendant in memory;
//! and of the wire of a line, over connections in memory and a clock of its own.
#![tactic(auto)]

#[cfg(test)]
mod keeper_tests;
#[cfg(test)]
mod line_wire_tests;
#[cfg(test)]
mod memory_attendant;
#[cfg(test)]
mod memory_connection;
#[cfg(test)]
mod memory_keeper;
#[cfg(test)]
mod memory_wire;
#[cfg(test)]
mod play;
#[cfg(test)]
mod prompt_tests;
#[cfg(test)]
mod service_tests;
#[cfg(test)]
mod serving;
#[cfg(test)]
mod tcp_wire_tests;
#[cfg(test)]
mod wire_tests;
