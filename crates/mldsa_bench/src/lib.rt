//! Tests of the library on values from outside, and recorded bytes.
#![tactic(auto)]

#[cfg(test)]
mod arithmetic;
#[cfg(test)]
mod keys;
#[cfg(test)]
mod program;
#[cfg(test)]
mod signatures;
#[cfg(test)]
mod streams;
#[cfg(test)]
mod values;
