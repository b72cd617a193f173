//! Tests the public calls of the listing, and the program over sources and streams of its own.
#![tactic(auto)]

#[cfg(test)]
mod asserts;
#[cfg(test)]
mod commands;
#[cfg(test)]
mod cut_files;
#[cfg(test)]
mod lines;
#[cfg(test)]
mod listing;
#[cfg(test)]
mod outputs;
#[cfg(test)]
mod plans;
#[cfg(test)]
mod readers;
#[cfg(test)]
mod running;
#[cfg(test)]
mod thread_listings;
#[cfg(test)]
mod thread_memory;
#[cfg(test)]
mod thread_pace;
#[cfg(test)]
mod writers;
