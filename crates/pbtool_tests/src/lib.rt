//! Tests of pbtool that the pages of tests/pbtool cannot run: devices that fail at each call, memory, and the calls that programs make in the
//! command's place. What the command prints of its inputs is in tests/pbtool.
#![tactic(auto)]

#[cfg(test)]
mod calls;
#[cfg(test)]
mod compat;
#[cfg(test)]
mod compiled;
#[cfg(test)]
mod decimal;
#[cfg(test)]
mod early;
#[cfg(test)]
mod explain;
#[cfg(test)]
mod from_json;
#[cfg(test)]
mod json;
#[cfg(test)]
mod json_frames;
#[cfg(test)]
mod keep_going;
#[cfg(test)]
mod lenient;
#[cfg(test)]
mod raw;
#[cfg(test)]
mod reasons;
#[cfg(test)]
mod runs;
#[cfg(test)]
mod typed;
