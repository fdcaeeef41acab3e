//! Tests of public calls, with ample memory: what a row on the built program can't show.
#![tactic(auto)]

#[cfg(test)]
mod calls;
#[cfg(test)]
mod certificates;
#[cfg(test)]
mod faults;
#[cfg(test)]
mod given;
#[cfg(test)]
mod settling;
