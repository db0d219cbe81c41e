//! Trials of desks: what operators are told and shown there, alone and in a crew, and where the shelf fails.
#![tactic(auto)]

#[cfg(test)]
mod adding;
#[cfg(test)]
mod cascades;
#[cfg(test)]
mod commands;
#[cfg(test)]
mod crews;
#[cfg(test)]
mod desk_looks;
#[cfg(test)]
mod desks;
#[cfg(test)]
mod failing_calls;
#[cfg(test)]
mod gates;
#[cfg(test)]
mod refusals;
#[cfg(test)]
mod sweeps;
#[cfg(test)]
mod turns;
