//! What each operation does with its operands.
ghost use Rattle.std.specs.Prelude.{◌≡◌};
ghost use Rattle.core_step.specs.Roles.{core_roles as core_roles_of, gpr_roles as gpr_roles_of, bit_roles as bit_roles_of, signed_product as signed_product_of, with_bit as with_bit_of, opmask_move as opmask_move_of, mask_roles as mask_roles_of, roles_of};

use crate::kinds::{Breadth, Part, PartBreadth, Roles, StackUse, Use};
use row_table::{BitOp, CoreOp, GprOp, Layout, MaskOp, Op, Spot};

const IDLE: Roles = Roles {
    breadth: Breadth::OfRow,
    destination: Part::Absent,
    usage: Use::Write,
    source: Part::Absent,
    source_breadth: PartBreadth::Same,
    beside: Part::Absent,
    beside_breadth: PartBreadth::Same,
    also: Part::Absent,
    stack: StackUse::Aside,
};

/// Of what the core does by itself.
#[tactic(auto, unfolding(crate::specs::Roles::core_roles))]
fn core_roles(op: CoreOp) -> Roles
    ensures { result ≡ core_roles_of op }
{
    match op {
        CoreOp::Mov | CoreOp::Movbe | CoreOp::Movnti => Roles {
            destination: Part::First,
            source: Part::Second,
            ..IDLE
        },
        CoreOp::Movsxd | CoreOp::Movzx | CoreOp::Movsx => Roles {
            destination: Part::First,
            source: Part::Second,
            source_breadth: PartBreadth::Letter,
            ..IDLE
        },
        CoreOp::Lea => Roles {
            destination: Part::First,
            source: Part::Address,
            source_breadth: PartBreadth::Quad,
            ..IDLE
        },
        CoreOp::Xchg | CoreOp::Xadd => Roles {
            destination: Part::First,
            usage: Use::Update,
            source: Part::Second,
            also: Part::Second,
            ..IDLE
        },
        CoreOp::Push => Roles {
            breadth: Breadth::OfStack,
            destination: Part::Stack,
            source: Part::First,
            stack: StackUse::Pushes,
            ..IDLE
        },
        CoreOp::Pop => Roles {
            breadth: Breadth::OfStack,
            destination: Part::First,
            source: Part::Stack,
            stack: StackUse::Pops,
            ..IDLE
        },
        CoreOp::Pushf => Roles {
            breadth: Breadth::OfStack,
            destination: Part::Stack,
            stack: StackUse::Pushes,
            ..IDLE
        },
        CoreOp::Popf => Roles {
            breadth: Breadth::OfStack,
            source: Part::Stack,
            stack: StackUse::Pops,
            ..IDLE
        },
        CoreOp::Leave => Roles {
            breadth: Breadth::OfStack,
            destination: Part::Rbp,
            source: Part::Stack,
            stack: StackUse::Leaves,
            ..IDLE
        },
        CoreOp::Call => Roles {
            destination: Part::Stack,
            source: Part::First,
            stack: StackUse::Pushes,
            ..IDLE
        },
        CoreOp::Ret => Roles {
            source: Part::Stack,
            stack: StackUse::Pops,
            ..IDLE
        },
        CoreOp::Jmp | CoreOp::Jcc | CoreOp::Clflush => Roles {
            source: Part::First,
            ..IDLE
        },
        CoreOp::Loopne | CoreOp::Loope | CoreOp::Loop => Roles {
            breadth: Breadth::OfAddress,
            destination: Part::Rcx,
            usage: Use::Update,
            source: Part::First,
            source_breadth: PartBreadth::Quad,
            ..IDLE
        },
        CoreOp::Jrcxz => Roles {
            breadth: Breadth::OfAddress,
            destination: Part::Rcx,
            usage: Use::Read,
            source: Part::First,
            source_breadth: PartBreadth::Quad,
            ..IDLE
        },
        CoreOp::Cmovcc => Roles {
            destination: Part::First,
            usage: Use::Update,
            source: Part::Second,
            ..IDLE
        },
        CoreOp::Setcc => Roles {
            destination: Part::First,
            ..IDLE
        },
        CoreOp::Ldmxcsr => Roles {
            destination: Part::Mxcsr,
            source: Part::First,
            ..IDLE
        },
        CoreOp::Stmxcsr => Roles {
            destination: Part::First,
            source: Part::Mxcsr,
            ..IDLE
        },
        CoreOp::Cbw => Roles {
            destination: Part::Rax,
            source: Part::Rax,
            source_breadth: PartBreadth::Half,
            ..IDLE
        },
        CoreOp::Cwd => Roles {
            destination: Part::Rdx,
            source: Part::Rax,
            ..IDLE
        },
        CoreOp::Bswap | CoreOp::Cmpxchg8b => Roles {
            destination: Part::First,
            usage: Use::Update,
            ..IDLE
        },
        CoreOp::Sahf => Roles {
            source: Part::Ah,
            ..IDLE
        },
        CoreOp::Lahf => Roles {
            destination: Part::Ah,
            ..IDLE
        },
        CoreOp::Syscall => Roles {
            destination: Part::Rcx,
            also: Part::R11,
            ..IDLE
        },
        CoreOp::Rdtsc => Roles {
            destination: Part::Rax,
            also: Part::Rdx,
            ..IDLE
        },
        CoreOp::Xgetbv => Roles {
            destination: Part::Rax,
            source: Part::Rcx,
            also: Part::Rdx,
            ..IDLE
        },
        CoreOp::Cmpxchg => Roles {
            destination: Part::First,
            usage: Use::Update,
            source: Part::Second,
            beside: Part::Rax,
            also: Part::Rax,
            ..IDLE
        },
        CoreOp::Cmc
        | CoreOp::Clc
        | CoreOp::Stc
        | CoreOp::Cld
        | CoreOp::Std
        | CoreOp::Int3
        | CoreOp::Hlt
        | CoreOp::Cpuid
        | CoreOp::Nop
        | CoreOp::Vzeroupper
        | CoreOp::Vzeroall => IDLE,
    }
}

/// Of a signed product, which has one, two or three operands.
fn signed_product(layout: &Layout) -> Roles
    ensures { result ≡ signed_product_of layout.now }
{
    match (layout.second.spot, layout.third.spot) {
        (Spot::Absent, _) => Roles {
            destination: Part::Rax,
            source: Part::First,
            beside: Part::Rax,
            also: Part::UpperHalf,
            ..IDLE
        },
        (_, Spot::Absent) => Roles {
            destination: Part::First,
            source: Part::Second,
            beside: Part::First,
            ..IDLE
        },
        (_, _) => Roles {
            destination: Part::First,
            source: Part::Second,
            beside: Part::Third,
            ..IDLE
        },
    }
}

/// Of arithmetic.
#[tactic(auto, unfolding(crate::specs::Roles::gpr_roles))]
fn gpr_roles(op: GprOp, layout: &Layout) -> Roles
    ensures { result ≡ gpr_roles_of op layout.now }
{
    match op {
        GprOp::Add
        | GprOp::Or
        | GprOp::Adc
        | GprOp::Sbb
        | GprOp::And
        | GprOp::Sub
        | GprOp::Xor
        | GprOp::Adcx
        | GprOp::Adox => Roles {
            destination: Part::First,
            usage: Use::Update,
            source: Part::Second,
            ..IDLE
        },
        GprOp::Cmp | GprOp::Test => Roles {
            destination: Part::First,
            usage: Use::Read,
            source: Part::Second,
            ..IDLE
        },
        GprOp::Not | GprOp::Neg | GprOp::Inc | GprOp::Dec => Roles {
            destination: Part::First,
            usage: Use::Update,
            ..IDLE
        },
        GprOp::Mul => Roles {
            destination: Part::Rax,
            source: Part::First,
            beside: Part::Rax,
            also: Part::UpperHalf,
            ..IDLE
        },
        GprOp::Imul => signed_product(layout),
        GprOp::Div | GprOp::Idiv => Roles {
            destination: Part::Rax,
            usage: Use::Update,
            source: Part::First,
            beside: Part::UpperHalf,
            also: Part::UpperHalf,
            ..IDLE
        },
        GprOp::Mulx => Roles {
            destination: Part::First,
            source: Part::Third,
            beside: Part::Rdx,
            also: Part::Second,
            ..IDLE
        },
    }
}

/// Where the bit is that the second operand numbers.
fn with_bit(layout: &Layout) -> Part
    ensures { result ≡ with_bit_of layout.now }
{
    match layout.second.spot {
        Spot::Reg => Part::Bit,
        _ => Part::First,
    }
}

/// Of shifts, rotates and single bits.
#[tactic(auto, unfolding(crate::specs::Roles::bit_roles))]
fn bit_roles(op: BitOp, layout: &Layout) -> Roles
    ensures { result ≡ bit_roles_of op layout.now }
{
    match op {
        BitOp::Rol | BitOp::Ror | BitOp::Rcl | BitOp::Rcr | BitOp::Shl | BitOp::Shr | BitOp::Sar =>
            Roles {
                destination: Part::First,
                usage: Use::Update,
                source: Part::Second,
                source_breadth: PartBreadth::Count,
                ..IDLE
            },
        BitOp::Shld | BitOp::Shrd => Roles {
            destination: Part::First,
            usage: Use::Update,
            source: Part::Second,
            beside: Part::Third,
            beside_breadth: PartBreadth::Count,
            ..IDLE
        },
        BitOp::Bt => Roles {
            destination: with_bit(layout),
            usage: Use::Read,
            source: Part::Second,
            ..IDLE
        },
        BitOp::Bts | BitOp::Btr | BitOp::Btc => Roles {
            destination: with_bit(layout),
            usage: Use::Update,
            source: Part::Second,
            ..IDLE
        },
        BitOp::Popcnt
        | BitOp::Bsf
        | BitOp::Tzcnt
        | BitOp::Bsr
        | BitOp::Lzcnt
        | BitOp::Blsr
        | BitOp::Blsmsk
        | BitOp::Blsi => Roles {
            destination: Part::First,
            source: Part::Second,
            ..IDLE
        },
        BitOp::Andn | BitOp::Pext | BitOp::Pdep => Roles {
            destination: Part::First,
            source: Part::Third,
            beside: Part::Second,
            ..IDLE
        },
        BitOp::Bzhi | BitOp::Bextr | BitOp::Shlx | BitOp::Sarx | BitOp::Shrx | BitOp::Rorx =>
            Roles {
                destination: Part::First,
                source: Part::Second,
                beside: Part::Third,
                ..IDLE
            },
    }
}

/// Of KMOV, between opmasks, memory and general registers.
fn opmask_move(layout: &Layout) -> Roles
    ensures { result ≡ opmask_move_of layout.now }
{
    match (layout.first.spot, layout.second.spot) {
        (Spot::Reg, _) => Roles {
            breadth: Breadth::OfScalar,
            destination: Part::First,
            source: Part::Second,
            source_breadth: PartBreadth::InRow,
            ..IDLE
        },
        (_, Spot::Rm) => Roles {
            destination: Part::First,
            source: Part::Second,
            source_breadth: PartBreadth::Quad,
            ..IDLE
        },
        (_, _) => Roles {
            destination: Part::First,
            source: Part::Second,
            ..IDLE
        },
    }
}

/// Of opmasks.
#[tactic(auto, unfolding(crate::specs::Roles::mask_roles))]
fn mask_roles(op: MaskOp, layout: &Layout) -> Roles
    ensures { result ≡ mask_roles_of op layout.now }
{
    match op {
        MaskOp::Kand
        | MaskOp::Kandn
        | MaskOp::Kor
        | MaskOp::Kxnor
        | MaskOp::Kxor
        | MaskOp::Kadd
        | MaskOp::Kunpck => Roles {
            destination: Part::First,
            source: Part::Third,
            beside: Part::Second,
            ..IDLE
        },
        MaskOp::Knot => Roles {
            destination: Part::First,
            source: Part::Second,
            ..IDLE
        },
        MaskOp::Kmov => opmask_move(layout),
        MaskOp::Kortest | MaskOp::Ktest => Roles {
            destination: Part::First,
            usage: Use::Read,
            source: Part::Second,
            ..IDLE
        },
        MaskOp::Kshiftr | MaskOp::Kshiftl => Roles {
            destination: Part::First,
            source: Part::Second,
            beside: Part::Third,
            beside_breadth: PartBreadth::Count,
            ..IDLE
        },
    }
}

/// What an operation does with operands of this layout. Strings and vectors have plans of their own.
#[inline(always)]
pub(crate) fn roles(op: Op, layout: &Layout) -> Roles
    ensures { result ≡ roles_of op layout.now }
{
    match op {
        Op::Core(op) => core_roles(op),
        Op::Gpr(op) => gpr_roles(op, layout),
        Op::Bit(op) => bit_roles(op, layout),
        Op::Mask(op) => mask_roles(op, layout),
        Op::String(_)
        | Op::Lane(_)
        | Op::Cross(_)
        | Op::Width(_)
        | Op::Mac(_)
        | Op::Vector(_)
        | Op::Gather(_)
        | Op::Xsave(_) => IDLE,
    }
}
