//! The ways in which instructions are performed.
ghost use Rattle.std.specs.Prelude.{◌≡◌};
ghost use Rattle.core_step.specs.Plan.{core_way, way_of};

use row_table::{CoreOp, Op, StringOp};
use vec_step::Clearing;

/// The way in which an instruction is performed.
#[derive(Clone, Copy)]
pub enum Way {
    /// Numbers are taken, and others put to their places.
    Numbers,
    /// One iteration on strings in memory.
    Strings(StringOp),
    /// Two registers are compared with memory and exchanged.
    Pair,
    /// Lanes of vectors are taken, and others put to their places.
    Vectors,
    /// Bytes of vector registers become 0.
    Clears(Clearing),
    /// Four registers tell what the processor has.
    Identifies,
}

impl Way {
    /// Of what the core does by itself.
    #[tactic(auto, unfolding(crate::specs::Plan::core_way))]
    fn of_core(op: CoreOp) -> Way
        ensures { result ≡ core_way op }
    {
        match op {
            CoreOp::Cmpxchg8b => Way::Pair,
            CoreOp::Vzeroupper => Way::Clears(Clearing::Upper),
            CoreOp::Vzeroall => Way::Clears(Clearing::All),
            CoreOp::Cpuid => Way::Identifies,
            CoreOp::Mov
            | CoreOp::Movsxd
            | CoreOp::Movzx
            | CoreOp::Movsx
            | CoreOp::Movbe
            | CoreOp::Movnti
            | CoreOp::Lea
            | CoreOp::Xchg
            | CoreOp::Push
            | CoreOp::Pop
            | CoreOp::Pushf
            | CoreOp::Popf
            | CoreOp::Leave
            | CoreOp::Call
            | CoreOp::Ret
            | CoreOp::Jmp
            | CoreOp::Jcc
            | CoreOp::Loopne
            | CoreOp::Loope
            | CoreOp::Loop
            | CoreOp::Jrcxz
            | CoreOp::Cmovcc
            | CoreOp::Setcc
            | CoreOp::Cbw
            | CoreOp::Cwd
            | CoreOp::Bswap
            | CoreOp::Cmc
            | CoreOp::Clc
            | CoreOp::Stc
            | CoreOp::Cld
            | CoreOp::Std
            | CoreOp::Sahf
            | CoreOp::Lahf
            | CoreOp::Int3
            | CoreOp::Hlt
            | CoreOp::Syscall
            | CoreOp::Rdtsc
            | CoreOp::Nop
            | CoreOp::Xadd
            | CoreOp::Cmpxchg
            | CoreOp::Xgetbv
            | CoreOp::Ldmxcsr
            | CoreOp::Stmxcsr
            | CoreOp::Clflush => Way::Numbers,
        }
    }

    /// Of an operation.
    pub(crate) fn of(op: Op) -> Way
        ensures { result ≡ way_of op }
    {
        match op {
            Op::Core(op) => Way::of_core(op),
            Op::String(op) => Way::Strings(op),
            Op::Lane(_) | Op::Cross(_) | Op::Width(_) | Op::Mac(_) | Op::Vector(_) => Way::Vectors,
            Op::Gpr(_) | Op::Bit(_) | Op::Mask(_) | Op::Gather(_) | Op::Xsave(_) => Way::Numbers,
        }
    }
}
