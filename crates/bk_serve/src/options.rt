//! How a directory is served.

use crate::background::Thresholds;

/// Options of the command line.
#[derive(Clone, Copy, Debug, PartialEq, Eq)]
pub(crate) struct Options {
    /// Which logs are compacted in the background. None: there is no such compaction.
    pub compact: Option<Thresholds>,
    /// A log with an entry is sealed before an entry that would exceed this many bytes.
    pub log_limit: u32,
    /// Whether hints are used and written.
    pub hints: bool,
    /// Number of threads that may share the reads that were sent ahead, from 1 on.
    pub readers: u32,
}

/// Greatest number of threads that may share reads.
const READERS: u32 = 8;

impl Options {
    /// The options without words.
    pub const DEFAULT: Options = Options {
        compact: None,
        log_limit: 1_073_741_824,
        hints: true,
        readers: 1,
    };

    /// Sets an option, which may have a value. Returns how many words it is, `None` if there is no such
    /// option or it has no such value.
    pub fn set(&mut self, option: &str, value: Option<&str>) -> Option<usize> {
        match option {
            "--compact" => {
                self.compact = Some(thresholds_of(value?)?);
                Some(2)
            }
            "--log-limit" => {
                self.log_limit = log_limit_of(value?)?;
                Some(2)
            }
            "--no-hints" => {
                self.hints = false;
                Some(1)
            }
            "--readers" => {
                self.readers = readers_of(value?)?;
                Some(2)
            }
            _ => None,
        }
    }
}

/// Returns the thresholds that two percentages are, as `20,80`.
fn thresholds_of(word: &str) -> Option<Thresholds> {
    let (minor, major) = word.split_once(',')?;
    Some(Thresholds {
        minor: thousandths_of(minor)?,
        major: thousandths_of(major)?,
    })
}

/// Returns the thousandths of a percentage from 0 to 100, in decimal digits.
fn thousandths_of(word: &str) -> Option<u32> {
    match number_of(word)? {
        percent if percent <= 100 => Some(10 * percent),
        _ => None,
    }
}

/// Returns the limit of a log, in decimal digits, if a store allows it.
fn log_limit_of(word: &str) -> Option<u32> {
    match number_of(word)? {
        limit @ 2048..=4_000_000_000 => Some(limit),
        _ => None,
    }
}

/// Returns a number of threads that may share reads, in decimal digits.
fn readers_of(word: &str) -> Option<u32> {
    match number_of(word)? {
        readers @ 1..=READERS => Some(readers),
        _ => None,
    }
}

/// Returns the number that decimal digits are.
fn number_of(word: &str) -> Option<u32> {
    if word.is_empty() || !word.bytes().all(|byte| byte.is_ascii_digit()) {
        return None;
    }
    word.parse().ok()
}
