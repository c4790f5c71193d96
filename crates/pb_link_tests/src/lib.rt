//! Tests of the declarations of pools, by public calls alone.
#![tactic(auto)]

#[cfg(test)]
mod chains;
#[cfg(test)]
mod declarations;
#[cfg(test)]
mod enum_maps;
#[cfg(test)]
mod first_call;
#[cfg(test)]
mod hostile;
#[cfg(test)]
mod kinds;
#[cfg(test)]
mod resolved;
#[cfg(test)]
mod rows;
#[cfg(test)]
mod set_bytes;
#[cfg(test)]
mod sources;
