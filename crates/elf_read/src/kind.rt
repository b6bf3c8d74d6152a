//! What kind of file it is.

/// The file's type (ELF64 gABI, "ELF Header").
#[derive(Clone, Copy, Debug, PartialEq, Eq)]
pub enum Kind {
    /// ET_REL, an object that is not linked yet.
    Rel,
    /// ET_EXEC, a program with fixed addresses.
    Exec,
    /// ET_DYN, a shared object or a program that can be moved.
    Dyn,
    /// ET_CORE, the memory of a process that was stopped.
    Core,
}
