//! Command line of the program: parsing its words, and its help.
#![tactic(auto)]

mod folder;
mod folder_option;
mod help;
mod ledgers;
mod near;
mod number_option;
mod row;
mod rows;
mod script;
pub mod words;

pub use folder::{FolderCall, command_of, folder_call, form_of, is_folder_call, json_arg};
pub use help::{ABOUT, Commands, PROGRAM_HELP, VERSION};
pub use near::near_command_error;
pub use row::{CommandRow, Value, Word};
pub use rows::{reading_tables, row_of, tables, writing_tables};
pub use script::{DEFAULTS, ScriptCall, script_call, text_of};
