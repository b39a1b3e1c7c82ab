//! The options of `script` for a directory: its path, whether its manifests are left alone, and whether
//! hints are used.

ghost use Rattle.std.specs.Prelude.{◌≡◌, false, codes, option_map};
ghost use Rattle.clap.specs.Matches.{found_of};
ghost use Rattle.clap.specs.Walk.{first_of, one_of, rows_of, rule_of};
ghost use Rattle.bk_cli.specs.CommandLine.{flag_rule, option_rule, AsksFlag};

use clap::{Arg, ArgAction, ArgMatches};
use std::alloc::Global;

/// The name of the option for the path, without the two dashes.
pub(crate) const FOLDER: &str = "folder";

/// Returns the option for the path.
pub(crate) fn folder_arg<'a>(alloc: Global) -> Arg<'a>
    ensures rule { rule_of result ≡ option_rule (codes "folder") }
    ensures local { result.global ≡ false }
{
    Arg::new(alloc, "folder")
        .long("folder")
        .value_name("DIR")
        .help(
            "Run the steps on this directory of logs, created if it does not exist, and not in memory",
        )
}

/// Returns the path of the directory; `None` if the option is not given.
pub(crate) fn read_folder<'a>(matches: &ArgMatches<'a>) -> Option<&'a str>
    ensures { first_of (codes "folder") (rows_of (found_of matches.now)) ≡ option_map (λ path. path.now) result }
{
    matches.get_str("folder")
}

/// The name of the option for the manifests, without the two dashes.
pub(crate) const NO_MANIFEST: &str = "no-manifest";

/// Returns the option for the manifests.
pub(crate) fn no_manifest_arg<'a>(alloc: Global) -> Arg<'a>
    ensures rule { rule_of result ≡ flag_rule (codes "no-manifest") }
    ensures local { result.global ≡ false }
{
    Arg::new(alloc, "no-manifest")
        .long("no-manifest")
        .action(ArgAction::SetTrue)
        .help("Neither read nor write the manifests of the directory")
}

/// Returns whether the manifests are neither read nor written.
pub(crate) fn read_no_manifest(matches: &ArgMatches<'_>) -> bool
    ensures { AsksFlag (one_of (codes "no-manifest") (rows_of (found_of matches.now))) result }
{
    matches.get_flag("no-manifest")
}

/// The name of the option for hints, without the two dashes.
pub(crate) const NO_HINTS: &str = "no-hints";

/// Returns the option for hints.
pub(crate) fn no_hints_arg<'a>(alloc: Global) -> Arg<'a>
    ensures rule { rule_of result ≡ flag_rule (codes "no-hints") }
    ensures local { result.global ≡ false }
{
    Arg::new(alloc, "no-hints")
        .long("no-hints")
        .action(ArgAction::SetTrue)
        .help("Use no hint, and read the records of each log")
}

/// Returns whether no hint is used.
pub(crate) fn read_no_hints(matches: &ArgMatches<'_>) -> bool
    ensures { AsksFlag (one_of (codes "no-hints") (rows_of (found_of matches.now))) result }
{
    matches.get_flag("no-hints")
}
