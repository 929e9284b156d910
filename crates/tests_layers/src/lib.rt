//! Tests of the layers below a hub, over the public items of their crates: names, frames, spellings
//! and blocks that are written, notices, tables, the spool, commands, and what is printed of
//! faults.
#![tactic(auto)]

#[cfg(test)]
mod bisync_tests;
#[cfg(test)]
mod block_tests;
#[cfg(test)]
mod command_tests;
#[cfg(test)]
mod ebcdic_tests;
#[cfg(test)]
mod fault_tests;
#[cfg(test)]
mod notice_tests;
#[cfg(test)]
mod record_tests;
#[cfg(test)]
mod same;
#[cfg(test)]
mod spool_tests;
#[cfg(test)]
mod table_tests;
