//! Which candidates of two programs are live: each one whose query is refuted (Houdini: Flanagan and Leino 2001).
#![tactic(auto)]

mod settle;

pub use settle::{Cause, Death, Settled, settle_one};
