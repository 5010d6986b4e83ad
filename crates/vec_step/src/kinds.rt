//! A vector instruction with its operands found.
use row_table::Spot;
use vec_units::Form;

/// Which places of a row's list of operands the destination and the two sources are.
#[derive(Clone, Copy)]
pub struct Spots {
    pub destination: Spot,
    pub first: Spot,
    pub second: Spot,
}

/// What an instruction's fields name: the registers by their numbers, and where its memory is, if ModRM names memory.
#[derive(Clone, Copy)]
pub struct Places {
    pub reg: u8,
    pub vvvv: u8,
    pub rm: u8,
    pub memory: Option<u64>,
}

/// Lanes in memory, and those of them that are accessed.
#[derive(Clone, Copy)]
pub struct Span {
    pub addr: u64,
    /// The bytes of a lane.
    pub width: u8,
    pub lanes: u8,
    pub mask: u64,
}

/// Where a source is.
#[derive(Clone, Copy)]
pub enum Source {
    /// A vector register.
    Register(u8),
    /// A general register, whose number is the lowest lanes.
    General(u8),
    /// An opmask, which is the lowest lanes.
    Opmask(u8),
    /// The number of an immediate.
    Count(u8),
    /// Memory, lane by lane.
    Memory(Span),
    /// One lane of memory, for all lanes.
    Broadcast(Span),
    /// So many bytes of memory, in one access.
    Whole(u64, u8),
    Nothing,
}

/// Where the result goes.
#[derive(Clone, Copy)]
pub enum Target {
    /// A vector register.
    Register(u8),
    Memory(Span),
    /// An opmask.
    Mask(u8),
    /// A general register.
    General(u8),
    /// ZF and CF; the other four that arithmetic sets are cleared.
    Flags,
    Nowhere,
}

/// Which bytes of vector registers 0 to 15 become 0.
#[derive(Clone, Copy)]
pub enum Clearing {
    /// Those from 16 up.
    Upper,
    All,
}

/// A vector instruction with its operands found.
#[derive(Clone, Copy)]
pub struct VectorPlan {
    pub form: Form,
    pub mask: u64,
    /// The vector register whose lanes stay where they aren't written.
    pub old: u8,
    /// At most one of the two sources is in memory.
    pub first: Source,
    pub second: Source,
    pub target: Target,
    /// Where the next instruction stands.
    pub next: u64,
}
