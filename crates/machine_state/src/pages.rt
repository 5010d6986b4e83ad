//! The size of a page.
ghost use Rattle.std.specs.Prelude.{◌≡◌};
ghost use Rattle.machine_state.specs.Memory.{page_size};

/// How many bytes a page has.
pub const PAGE_SIZE: u64 = 4096;

/// The size of a page in the code is that of the definitions.
pub fn page_size_law()
    ensures { PAGE_SIZE ≡ page_size }
{}
