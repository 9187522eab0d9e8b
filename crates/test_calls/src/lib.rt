//! Calls that no row of text can make: of what is handed back with a refusal, out of memory, of readers and writers that fail, and of laws.
#![tactic(auto)]

#[cfg(test)]
mod bdos;
#[cfg(test)]
mod checkpoints;
#[cfg(test)]
mod disks;
#[cfg(test)]
mod entries;
#[cfg(test)]
mod machines;
#[cfg(test)]
mod protocol;
#[cfg(test)]
mod runs;
#[cfg(test)]
mod same;
#[cfg(test)]
mod serve_files;
#[cfg(test)]
mod streams;
#[cfg(test)]
mod texts;
#[cfg(test)]
mod waits;
