//! The commands of the program that need no threads, on any streams.
#![tactic(auto)]

mod commands;
mod hint;
mod program;
mod script;

pub use bk_cli::{
    CommandRow, Commands, DEFAULTS, FolderCall, ScriptCall, Value, Word, command_of, folder_call,
    form_of, is_folder_call, json_arg, row_of, script_call, tables, text_of, words,
};
pub use bk_compact_disk::compact_disk;
pub use bk_compact_folder::CompactAsk;
pub use bk_deleted::DeletedAsk;
pub use bk_folder::{
    Book, Ignored, Notes, Opened, Opening, OpeningDisk, OpeningFault, OpeningView, open_or_make,
};
pub use bk_inspect::Hints;
pub use bk_messages::{BookFault, FailedCalls, LogsFault};
pub use commands::dir_command;
pub use program::{StartFault, run_words, tell, tell_fault, tell_reading, words_of};
