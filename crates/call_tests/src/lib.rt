//! Tests of the public calls of the libraries: worked rows, and what no clause says. It has no call of its own.
#![tactic(auto)]

#[cfg(test)]
mod captures;
#[cfg(test)]
mod configurations;
#[cfg(test)]
mod connectors;
#[cfg(test)]
mod control_transfers;
#[cfg(test)]
mod desks;
#[cfg(test)]
mod enumerations;
#[cfg(test)]
mod hexadecimal;
#[cfg(test)]
mod keyboards;
#[cfg(test)]
mod latches;
#[cfg(test)]
mod mice;
#[cfg(test)]
mod report_descriptors;
#[cfg(test)]
mod rule_files;
#[cfg(test)]
mod selections;
#[cfg(test)]
mod self_tests;
#[cfg(test)]
mod transcript_lines;
#[cfg(test)]
mod verdicts;
