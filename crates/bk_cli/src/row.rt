//! A command on a directory as a row of the table of commands: its usage and its help.

use clap::{Arg, ArgAction, Command};
use std::alloc::{AllocError, Global};
use std::fmt;
use std::fmt::{Display, Formatter};

/// A command on a directory of entry logs, whose first operand is the directory.
#[derive(Clone, Copy, Debug)]
pub struct CommandRow {
    /// The name of the command.
    pub name: &'static str,
    /// The operands after DIR, in order.
    pub operands: &'static [Word],
    /// The options besides `--json`, in the order of the help.
    pub options: &'static [Word],
    /// Summary: one line in the imperative.
    pub summary: &'static str,
    /// Its output, its exit status and examples.
    pub help: &'static str,
}

/// An operand or an option of a command.
#[derive(Clone, Copy, Debug)]
pub struct Word {
    /// An operand's name, in capitals, or an option's, without the two dashes.
    pub name: &'static str,
    /// The kind of its value.
    pub value: Value,
    /// Whether an operand must be given.
    pub is_required: bool,
    /// The flag without which an operand must be given, though it is not required.
    pub unless: Option<&'static str>,
    /// The options that cannot be given together with this one.
    pub conflicts: &'static [&'static str],
    /// One line of help.
    pub help: &'static str,
}

/// The value of an operand or an option. Each `name` is the name of the value in the help.
#[derive(Clone, Copy, Debug)]
pub enum Value {
    /// None: the option is given or not.
    Flag,
    /// A log: its id in decimal, or its file's name.
    Log,
    /// A number from 0 to `most`.
    Number {
        name: &'static str,
        most: u64,
    },
    /// Numbers from 0 to `most`; the option can be repeated.
    Numbers {
        name: &'static str,
        most: u64,
    },
    /// A path.
    Path,
    /// Paths; the option can be repeated.
    Paths {
        name: &'static str,
    },
    /// One of these words.
    Choice {
        name: &'static str,
        among: &'static [&'static str],
    },
}

impl Word {
    /// Returns the definition of the operand for clap.
    fn operand<'a>(&self, alloc: Global) -> Arg<'a> {
        Arg::new(alloc, self.name)
            .value_name(self.name)
            .required(self.is_required)
            .help(self.help)
    }

    /// Returns the definition of the option for clap.
    fn option<'a>(&self, alloc: Global) -> Result<Arg<'a>, AllocError> {
        let plain = Arg::new(alloc, self.name).long(self.name).help(self.help);
        let mut option = match self.value {
            Value::Flag => plain.action(ArgAction::SetTrue),
            Value::Log => plain.value_name("LOG"),
            Value::Path => plain.value_name("FILE"),
            Value::Number { name, .. } | Value::Choice { name, .. } => plain.value_name(name),
            Value::Numbers { name, .. } | Value::Paths { name } => {
                plain.action(ArgAction::Append).value_name(name)
            }
        };
        for other in self.conflicts {
            option = option.conflicts_with(*other)?;
        }
        Ok(option)
    }
}

impl CommandRow {
    /// Returns the definition of the command for clap.
    pub(crate) fn command<'a>(&self, alloc: Global) -> Result<Command<'a>, AllocError> {
        let mut command = Command::new(alloc, self.name)
            .about(self.summary)
            .after_help(self.help)
            .arg(directory(alloc))?;
        for operand in self.operands {
            command = command.arg(operand.operand(alloc))?;
        }
        for option in self.options {
            command = command.arg(option.option(alloc)?)?;
        }
        Ok(command)
    }
}

/// Returns the definition of the directory, the first operand of each command.
fn directory<'a>(alloc: Global) -> Arg<'a> {
    Arg::new(alloc, "DIR")
        .value_name("DIR")
        .required(true)
        .help("The directory of the logs")
}

/// Usage of a command. The text is a usage line, without the word `Usage`.
#[derive(Clone, Copy)]
pub(crate) struct Usage {
    pub(crate) row: &'static CommandRow,
}

impl Display for Usage {
    fn fmt<W: fmt::Write>(&self, f: &mut Formatter<W>) -> fmt::Result {
        write!(f, "bookie {} [OPTIONS] <DIR>", self.row.name)?;
        for operand in self.row.operands {
            if operand.is_required {
                write!(f, " <{}>", operand.name)?;
            } else {
                write!(f, " [{}]", operand.name)?;
            }
        }
        Ok(())
    }
}

/// The column of the summaries in the list of commands.
const COLUMN: usize = 38;

/// A command in the list of commands. The text is one line.
#[derive(Clone, Copy)]
pub(crate) struct Listed {
    pub(crate) row: &'static CommandRow,
}

impl Display for Listed {
    fn fmt<W: fmt::Write>(&self, f: &mut Formatter<W>) -> fmt::Result {
        write!(f, "  {} DIR", self.row.name)?;
        let mut column = self.row.name.len().saturating_add(6);
        for operand in self.row.operands {
            column = column.saturating_add(operand.name.len()).saturating_add(1);
            if operand.is_required {
                write!(f, " {}", operand.name)?;
            } else {
                write!(f, " [{}]", operand.name)?;
                column = column.saturating_add(2);
            }
        }
        for _ in column..COLUMN {
            f.write_str(" ")?;
        }
        writeln!(f, "  {}", self.row.summary)
    }
}
