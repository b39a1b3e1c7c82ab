//! Scripts of steps: parses the lines, runs the steps on a store, and prints the answers.
#![tactic(auto)]

mod disk;
mod fault;
mod input;
mod line;
mod run;
mod script;
mod text;

pub use disk::ScriptDisk;
pub use fault::{RunFault, ScriptFault};
pub use line::{LAST_READER, LineFault, read_step};
pub use run::{run_on, run_script};
pub use text::Text;
