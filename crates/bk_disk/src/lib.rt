//! Disks of entry logs: the traits that the storage uses, and disks in memory, over a directory,
//! and with an injected failure.
#![tactic(auto)]

mod blocks;
mod chunks;
mod copying;
mod countdown;
mod cut_disk;
mod dir_disk;
mod dir_view;
mod disk;
mod fault;
mod fault_disk;
mod fault_view;
mod fault_watch;
mod file_fault;
mod folder;
mod folder_fault;
mod folder_file;
mod kept;
mod lock;
mod log_names;
mod mem_disk;
mod mem_view;
mod names;
mod open_views;
mod reason;
mod record_run;
mod refusal;
mod trouble;
mod unsynced;
mod window;

pub use cut_disk::CutDisk;
pub use dir_disk::DirDisk;
pub use dir_view::DirView;
pub use disk::{LogDisk, LogView};
pub use fault::DiskFault;
pub use fault_disk::FaultDisk;
pub use fault_view::FaultView;
pub use fault_watch::FaultWatch;
pub use file_fault::{FileFault, Operation};
pub use folder_fault::FolderFault;
pub use folder_file::FolderFile;
pub use mem_disk::MemDisk;
pub use mem_view::MemView;
pub use names::{log_of, name_of};
pub use record_run::RecordRun;
