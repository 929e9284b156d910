//! Tests of the keeper of a hub's whole files: after each step what a killed program would leave is
//! what the hub has.
#![tactic(auto)]

#[cfg(test)]
mod arrival_tests;
#[cfg(test)]
mod aside_tests;
#[cfg(test)]
mod change_tests;
#[cfg(test)]
mod lending;
#[cfg(test)]
mod networks;
#[cfg(test)]
mod number_tests;
#[cfg(test)]
mod numbered_lines;
#[cfg(test)]
mod opening_tests;
#[cfg(test)]
mod order_tests;
#[cfg(test)]
mod orders;
#[cfg(test)]
mod playing;
#[cfg(test)]
mod portion_tests;
#[cfg(test)]
mod row_tests;
#[cfg(test)]
mod same;
#[cfg(test)]
mod spool_files;
