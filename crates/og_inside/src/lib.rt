//! Tests of what no file reaches yet: nested models, timers, programs that no command prints, and copies of trees.
#![tactic(auto)]

#[cfg(test)]
mod copies;
#[cfg(test)]
mod nested;
#[cfg(test)]
mod printing;
#[cfg(test)]
mod traces;
