//! The instruction table: each row that the machine can perform, the row of an instruction's fields, and
//! which bytes follow an opcode.
#![tactic(auto)]

mod finding;
mod kinds;
mod layouts;
mod matching;
mod operations;
mod spelling;
mod table;
mod tuples;

pub use finding::{find, is_used, row, row_count, shape};
pub use kinds::{
    Align, Class, Decoded, Extent, Fields, Form, Layout, Level, MaskKind, Operands, Place, Prefix,
    Row, Shape, Spot, Tuple,
};
pub use layouts::layout;
pub use matching::wants_sib;
pub use operations::{
    BitOp, CoreOp, CrossOp, GatherOp, GprOp, LaneOp, MacOp, MaskOp, Op, StringOp, VectorOp,
    WidthOp, XsaveOp,
};
pub use spelling::{
    are_bytes_there, do_opmasks_fit, do_registers_fit, does_write_rm, is_memory, is_vvvv_used,
    is_without_evex, is_without_prefixes,
};
pub use tuples::{element_bytes, source_width, tuple_bytes, vector_bytes};

#[cfg(test)]
mod tests;
