//! Commands as rows.

/// What an option of a command takes.
#[derive(Clone, Copy)]
pub enum OptionKind {
    /// A value, and the command must have it.
    Required,
    /// A value, and it may be left out.
    Optional,
    /// No value.
    Flag,
}

/// An option of a command, by its full name.
#[derive(Clone, Copy)]
pub(crate) struct OptionRow<'a> {
    pub(crate) name: &'a str,
    pub(crate) kind: OptionKind,
}

/// A command: its name, its places in their order, and its options.
#[derive(Clone, Copy)]
pub(crate) struct CommandRow<'a> {
    pub(crate) name: &'a str,
    pub(crate) places: &'a [&'a str],
    pub(crate) options: &'a [OptionRow<'a>],
}
