//! Tests the public calls of the libraries: reading, making tables, scanning, cutting files into pieces and delivering these.
#![tactic(auto)]

#[cfg(test)]
mod asserts;
#[cfg(test)]
mod block_scanning;
#[cfg(test)]
mod claims;
#[cfg(test)]
mod collector;
#[cfg(test)]
mod equality;
#[cfg(test)]
mod expressions;
#[cfg(test)]
mod gates;
#[cfg(test)]
mod keeper;
#[cfg(test)]
mod memory;
#[cfg(test)]
mod pieces;
#[cfg(test)]
mod plans;
#[cfg(test)]
mod posting;
#[cfg(test)]
mod relay;
#[cfg(test)]
mod rule_lists;
#[cfg(test)]
mod scanning;
#[cfg(test)]
mod specifications;
#[cfg(test)]
mod table_changes;
#[cfg(test)]
mod table_damage;
#[cfg(test)]
mod table_limits;
#[cfg(test)]
mod table_texts;
#[cfg(test)]
mod tables;
#[cfg(test)]
mod texts;
#[cfg(test)]
mod thread_pieces;
#[cfg(test)]
mod threads;
