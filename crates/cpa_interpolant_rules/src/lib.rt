//! Interpolants along a path of an automaton, in words of stores. The definitions stand in
//! specs/Stores and specs/Interpolants; no code is run here.
#![tactic(auto)]

mod laws;

pub use laws::interpolants_leave_no_run;
