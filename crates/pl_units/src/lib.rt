//! What no command reaches, as tests: a keeper of nothing, a sink that is full, slots by themselves, and
//! whether two scripts are equal. The cases of pl_cases reach all else.
#![tactic(auto)]

#[cfg(test)]
mod outside_tests;
#[cfg(test)]
mod script_tests;
#[cfg(test)]
mod workspace_tests;
