//! A directory of logs that a command opens, with the manifests of its logs and ledgers.
#![tactic(auto)]

mod book;
mod directory;
mod folder_disk;
mod ignored;
mod notes;
mod opening;
mod opening_view;

pub use book::Book;
pub use directory::{Opening, OpeningFault, open_or_make};
pub use folder_disk::{FolderDisk, FolderView, LogsDisk};
pub use ignored::Ignored;
pub use notes::Notes;
pub use opening::{Opened, OpeningDisk};
pub use opening_view::OpeningView;
