//! Where in a settings file a fault is.

/// One of the two tables of a settings file whose keys are names.
#[derive(Clone, Copy, Debug, PartialEq, Eq)]
pub enum Section {
    /// The table `functions`.
    Functions,
    /// The table `machines`.
    Machines,
}

/// What there can be too many of.
#[derive(Clone, Copy, Debug, PartialEq, Eq)]
pub enum Counted {
    /// There are more than 256 machines.
    Machines,
    /// There are more than 1,024 functions.
    Functions,
    /// There are more than 4,096 workers in all.
    Workers,
}

/// Where in a settings file a fault is. `T` is how a key or a name is held: `&str`, lent by the file, in what is handed out.
#[derive(Clone, Copy, Debug, PartialEq, Eq, Drop)]
pub enum Place<T> {
    /// A line and a column of the text, both from 1. A column counts characters.
    Text {
        /// The line, from 1.
        line: usize,
        /// The column in the line, from 1.
        column: usize,
    },
    /// A key of the top table.
    Key(T),
    /// A function or a machine, by its name.
    Entry(Section, T),
    /// A key of the table of a function or a machine: the section, the name, and the key.
    EntryKey(Section, T, T),
    /// A name that a machine lists as a function: the machine's name, and the name that it lists.
    Listed(T, T),
    /// There are too many of these.
    Count(Counted),
}
