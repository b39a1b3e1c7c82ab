//! Results of the calls of a compaction, one enum per call.

/// The two kinds of compaction. They differ in the threshold below which a log is compacted.
#[derive(Clone, Copy, Debug, PartialEq, Eq)]
pub enum Kind {
    /// Uses the threshold `minor` of the settings.
    Minor,
    /// Uses the threshold `major`.
    Major,
}

/// Result of beginning a compaction.
#[derive(Clone, Copy, Debug, PartialEq, Eq)]
pub enum BeginAnswer {
    /// A compaction is running.
    JobRunning,
    /// No log qualifies.
    NothingToDo,
    /// The log of this id was chosen as the source log.
    Chosen(u32),
}

/// Result of one call that copies entries.
#[derive(Clone, Copy, Debug, PartialEq, Eq)]
pub enum CopyAnswer {
    /// No compaction is running.
    NoJob,
    /// All entries were copied, and the target log is sealed.
    NotNow,
    /// Every entry of the source log was examined.
    AtEnd,
    /// N of the examined entries were copied.
    Copied(u64),
}

/// Result of ending the copying.
#[derive(Clone, Copy, Debug, PartialEq, Eq)]
pub enum EndAnswer {
    /// No compaction is running.
    NoJob,
    /// The target log is sealed already.
    NotNow,
    /// An entry of the source log was not examined yet.
    NotAtEnd,
    /// The target log is sealed and published; N relocations are pending.
    Ended(u64),
}

/// Result of one call that switches index entries.
#[derive(Clone, Copy, Debug, PartialEq, Eq)]
pub enum SwitchAnswer {
    /// No compaction is running.
    NoJob,
    /// Entries are still being copied.
    NotNow,
    /// The first number counts the index entries that were switched to the target log, the second
    /// the pending relocations.
    Moved(u64, u64),
}

/// Result of finishing a compaction.
#[derive(Clone, Copy, Debug, PartialEq, Eq)]
pub enum FinishAnswer {
    /// No compaction is running.
    NoJob,
    /// Entries are still being copied.
    NotNow,
    /// N relocations, at least one, are pending.
    Left(u64),
    /// The compaction ended. N index entries, at least one, point into its source log, which is
    /// unchanged.
    StillNamed(u64),
    /// The compaction ended, and its source log, of this id, is Retired: no index entry points into
    /// it, and none will.
    Retired(u32),
}

/// Result of giving a compaction up.
#[derive(Clone, Copy, Debug, PartialEq, Eq)]
pub enum GiveUpAnswer {
    /// No compaction is running.
    NoJob,
    /// The compaction ended. Copied entries remain in the target log, and switched index entries
    /// stay switched.
    GivenUp,
}
