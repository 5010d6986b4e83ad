//! Flags and faults.

/// A fault of an instruction, before it becomes a signal (SDM volume 3, 6.15).
#[derive(Clone, Copy, Debug, PartialEq, Eq)]
pub enum Fault {
    /// #DE
    Divide,
    /// #BP, of INT3
    Breakpoint,
    /// #UD
    Undefined,
    /// #GP
    General,
    /// #PF at the byte `addr`; `mapped` says whether a page is mapped there.
    Page {
        addr: u64,
        write: bool,
        fetch: bool,
        mapped: bool,
    },
}

/// The seven flags of RFLAGS that change (SDM volume 1, 3.4.3).
#[derive(Clone, Copy, Debug, PartialEq, Eq)]
pub struct Flags {
    pub cf: bool,
    pub pf: bool,
    pub af: bool,
    pub zf: bool,
    pub sf: bool,
    pub df: bool,
    /// OF
    pub ovf: bool,
}
