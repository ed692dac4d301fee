//! Tests of the lower crates: what no clause says and no row of a `cases_` program shows. Whatever
//! else stands here is for tests alone, so nothing is proved twice.
#![tactic(auto)]

#[cfg(test)]
mod bounds;
#[cfg(test)]
mod faults;
#[cfg(test)]
mod files;
#[cfg(test)]
mod gates;
