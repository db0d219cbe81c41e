//! Trials of what no line of a table can say: readers, writers and shelves that fail, want of memory, a history that
//! begins past one, and hooks that the program doesn't have.
#![tactic(auto)]

#[cfg(test)]
mod arming;
#[cfg(test)]
mod failing_shelves;
#[cfg(test)]
mod folders;
#[cfg(test)]
mod histories;
#[cfg(test)]
mod hooks;
#[cfg(test)]
mod readers;
#[cfg(test)]
mod scripts;
#[cfg(test)]
mod status_trials;
#[cfg(test)]
mod writers;
