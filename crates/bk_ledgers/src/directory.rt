//! The manifest of the ledgers of a directory.

use bk_disk::DirDisk;
use bk_manifest::{Manifest, ManifestError, ManifestFile, NotRewritten, Record};
use bk_manifest_disk::{KeptFile, ReadFault, Torn, copy_torn, file_of, read_file};
use std::alloc::Global;

/// Name of the file beside the logs.
pub const LEDGERS: &str = "ledgers.manifest";

/// The manifest of a directory that is written.
#[derive(Drop)]
pub struct Opened {
    pub manifest: Manifest<KeptFile>,
    /// What was behind the last whole batch, if anything was.
    pub torn: Option<Torn>,
}

/// Opens the manifest of the directory that a disk writes, and makes one if there is none. One that
/// ends torn is first copied. One of which more than half of the records are superseded is written
/// anew.
///
/// # Errors
///
/// - `Disk`: the name is no plain file with one name, or the system refuses a call. The disk's watch
///   has the reason.
/// - `Fault`: the bytes are no manifest, or a damaged one. The file is as it was.
/// - `TooLong`: it ends torn, and 9,999 copies of others stand beside it. The file is as it was.
/// - `Memory`.
pub fn open_ledgers(alloc: Global, disk: &mut DirDisk) -> Result<Opened, ManifestError> {
    let file = file_of(alloc, disk, LEDGERS)?;
    let Some(found) = Manifest::open(alloc, file)? else {
        let file = file_of(alloc, disk, LEDGERS)?;
        return Ok(Opened {
            manifest: Manifest::create(alloc, file, 0)?,
            torn: None,
        });
    };
    let torn = if found.torn > 0 {
        Some(Torn {
            bytes: found.torn,
            copy: copy_torn(alloc, disk, LEDGERS)?,
        })
    } else {
        None
    };
    Ok(Opened {
        manifest: shortened(alloc, found.manifest, found.records)?,
        torn,
    })
}

/// Returns a manifest whose file has this many records, written anew if more than half of them are
/// superseded.
fn shortened<F: ManifestFile>(
    alloc: Global,
    manifest: Manifest<F>,
    records: usize,
) -> Result<Manifest<F>, ManifestError> {
    if !manifest.state().needs_rewrite(records) {
        return Ok(manifest);
    }
    match manifest.rewrite(alloc, &[]) {
        Ok(manifest) => Ok(manifest),
        Err(NotRewritten { error, .. }) => Err(error),
    }
}

/// Returns the records that stand in the manifest of the ledgers of the directory at a path; none if
/// there is no such file. Errors as `read_file`.
pub fn read_ledgers(rt: &HostRuntime, path: &str) -> Result<Vec<Record>, ReadFault> {
    match read_file(rt, path, LEDGERS)? {
        Some(found) => Ok(found.records),
        None => Ok(Vec::new(rt.alloc())),
    }
}
