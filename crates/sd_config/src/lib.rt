//! The settings of a run.
#![tactic(auto)]

/// What a run is told besides the two programs. No setting has been declared yet.
#[derive(Clone, Copy, Debug, PartialEq, Eq)]
pub struct Settings;

impl Settings {
    /// The settings of a run that is told nothing.
    pub fn none() -> Settings {
        Settings
    }
}
