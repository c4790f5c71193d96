//! Tests of `pb_wire` by its public calls, and a caller of its iterator that is proved from public clauses alone.
#![tactic(auto)]

#[cfg(test)]
mod allocations;
#[cfg(test)]
mod caller;
#[cfg(test)]
mod calls;
#[cfg(test)]
mod devices;
#[cfg(test)]
mod faults;
#[cfg(test)]
mod first_call;
#[cfg(test)]
mod rows;
#[cfg(test)]
mod scans;
#[cfg(test)]
mod walks;
