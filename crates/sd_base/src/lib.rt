//! What all layers share: names, types, values, and the outside as traits with forms of it in memory.
#![tactic(auto)]

mod copy;
mod error;
mod files;
pub mod limits;
mod name;
mod outside;
mod place;
mod reading;
mod sink;
mod sort;
mod writing;

pub use copy::{CloneOf, clone_items};
pub use error::{Failed, NoMemory};
pub use files::MemFiles;
pub use name::Name;
pub use outside::{Files, Gate, OpenGate, Sink};
pub use place::FirstPlaces;
pub use reading::{ReadFault, read_up_to};
pub use sink::MemSink;
pub use sort::{Place, Sort, Var, indices_of, is_same_sort, values_of};
pub use writing::{WriteFault, write_all, write_file};
