//! Tests of NJE over TCP/IP: TTBs that are read and written, in any pieces, control records, what is
//! printed of what is wrong with them, links, and who is given a line.
#![tactic(auto)]

#[cfg(test)]
mod control_tests;
#[cfg(test)]
mod hearing;
#[cfg(test)]
mod link_tests;
#[cfg(test)]
mod linked;
#[cfg(test)]
mod open_tests;
#[cfg(test)]
mod read_tests;
#[cfg(test)]
mod write_tests;
