//! What comes of an instruction, from the numbers of its destination and its source.
ghost use Rattle.std.specs.Prelude.{◌≡◌, ◌<◌, ◌^◌};
ghost use Rattle.std.specs.Prelude.{IsTrue, ◌*◌};
ghost use Rattle.gpr_units.specs.Alu.{is_alu};
ghost use Rattle.opmask_unit.specs.Opmasks.{is_width, is_combining, is_testing};
ghost use Rattle.core_step.specs.Size.{bits_in, bytes_in};
ghost use Rattle.core_step.specs.Fits.{OutcomeFits};
ghost use Rattle.core_step.specs.Result.{reversed as reversed_to, sign_bits as sign_bits_of, counted_down as counted_down_to, passes as passes_of, gives as gives_of, jumps as jumps_of, loops as loops_of, pushes as pushes_of, pops as pops_of, exchanges_numbers, calls as calls_of, returns_to, calls_system as calls_system_of, counts as counts_of, breaks as breaks_of, loads_control as loads_control_of, tells_enabled as tells_enabled_of, exchanges_sum as exchanges_sum_of, compares as compares_of, multiplies as multiplies_of, multiplies_freely as multiplies_freely_of, computes as computes_of, picks as picks_of, divides as divides_of, shifts as shifts_of, scans as scans_of, core_outcome as core_outcome_of, gpr_outcome as gpr_outcome_of, bit_outcome as bit_outcome_of, combines as combines_of, shifts_opmask as shifts_opmask_of, tests as tests_of, mask_outcome as mask_outcome_of, outcome_of, faults as faults_of};

use crate::acted::Acted;
use crate::flags::with_low;
use crate::kinds::{Instruction, Outcome};
use crate::save_area::XCR0;
use crate::sizes::Size;
use bit_units::{bits, shift};
use gpr_flags::{Fault, Flags, is_negative};
use gpr_units::{alu, divide, multiply};
use opmask_unit::{logic, shift as shift_opmask, test};
use row_table::{BitOp, CoreOp, GprOp, MaskOp, Op};

/// The bytes in the other order.
fn reversed(size: Size, number: u64) -> u64
    ensures { result ≡ reversed_to size number }
{
    bits(
        Op::Core(CoreOp::Bswap),
        size.bytes(),
        number,
        0,
        &mut Flags::none(),
    )
}

fn sign_bits(size: Size, number: u64) -> u64
    ensures { result ≡ sign_bits_of size number }
{
    if is_negative(size.bits(), number) {
        u64::MAX
    } else {
        0
    }
}

fn counted_down(size: Size, count: u64) -> u64
    ensures { result ≡ counted_down_to size count }
{
    size.cut(count.wrapping_sub(1))
}

/// The instruction pointer moves on.
fn passes(i: &Instruction, flags: Flags) -> Outcome
    ensures { result ≡ passes_of i.now flags }
{
    Outcome {
        acted: Acted::Done,
        destination: None,
        also: None,
        stack: None,
        flags,
        rip: i.next,
    }
}

/// A number goes to the destination.
fn gives(number: u64, i: &Instruction, flags: Flags) -> Outcome
    ensures { result ≡ gives_of number i.now flags }
{
    Outcome {
        destination: Some(number),
        ..passes(i, flags)
    }
}

/// The next instruction is elsewhere, where the condition is met.
fn jumps(taken: bool, target: u64, i: &Instruction, flags: Flags) -> Outcome
    ensures { result ≡ jumps_of taken target i.now flags }
{
    Outcome {
        rip: if taken { target } else { i.next },
        ..passes(i, flags)
    }
}

/// A count is lowered, and the next instruction is elsewhere where it isn't 0 then and the condition is met.
fn loops(met: bool, count: u64, target: u64, i: &Instruction, flags: Flags) -> Outcome
    ensures { result ≡ loops_of met (counted_down_to i.now.size count) target i.now flags }
{
    let left = counted_down(i.size, count);
    Outcome {
        destination: Some(left),
        ..jumps(left != 0 && met, target, i, flags)
    }
}

/// A number is pushed.
fn pushes(number: u64, i: &Instruction, flags: Flags) -> Outcome
    ensures { result ≡ pushes_of number i.now flags }
{
    Outcome {
        stack: Some(i.stack),
        ..gives(number, i, flags)
    }
}

/// The stack's operand is taken off.
fn pops(i: &Instruction, outcome: Outcome) -> Outcome
    ensures { result ≡ pops_of i.now outcome }
{
    Outcome {
        stack: Some(i.stack.wrapping_add(i.size.bytes() as u64)),
        ..outcome
    }
}

/// The instruction faults, and nothing changes.
fn faults(fault: Fault, i: &Instruction, flags: Flags) -> Outcome
    ensures { result ≡ faults_of fault i.now flags }
{
    Outcome {
        acted: Acted::Trap(fault),
        rip: i.rip,
        ..passes(i, flags)
    }
}

/// A sum goes to the destination, and what stood there to the source.
fn exchanges_sum(i: &Instruction, a: u64, b: u64, f: Flags) -> Outcome
    ensures { result ≡ exchanges_sum_of i.now a b f }
{
    Outcome {
        also: Some(a),
        ..computes(GprOp::Add, i, a, b, f)
    }
}

/// rAX, which is `c`, is compared with the destination.
fn compares(i: &Instruction, a: u64, b: u64, c: u64, f: Flags) -> Outcome
    ensures { result ≡ compares_of i.now a b c f }
{
    let Outcome { flags, .. } = computes(GprOp::Cmp, i, c, a, f);
    let is_equal = c == a;
    Outcome {
        destination: if is_equal { Some(b) } else { None },
        also: if is_equal { None } else { Some(a) },
        ..passes(i, flags)
    }
}

/// What stood in the destination goes to the source.
fn exchanges(a: u64, b: u64, i: &Instruction, f: Flags) -> Outcome
    ensures { result ≡ exchanges_numbers a b i.now f }
{
    Outcome {
        also: Some(a),
        ..gives(b, i, f)
    }
}

/// The address of the next instruction is pushed, and the next one is elsewhere.
fn calls(target: u64, i: &Instruction, f: Flags) -> Outcome
    ensures { result ≡ calls_of target i.now f }
{
    Outcome {
        rip: target,
        ..pushes(i.next, i, f)
    }
}

/// The next instruction is where the stack says.
fn returns(target: u64, i: &Instruction, f: Flags) -> Outcome
    ensures { result ≡ returns_to target i.now f }
{
    Outcome {
        stack: Some(i.stack.wrapping_add(8).wrapping_add(i.freed)),
        ..jumps(true, target, i, f)
    }
}

/// The call of the system is answered behind the instruction.
fn calls_system(i: &Instruction, f: Flags) -> Outcome
    ensures { result ≡ calls_system_of i.now f }
{
    Outcome {
        acted: Acted::Call,
        also: Some(f.word()),
        ..gives(i.next, i, f)
    }
}

/// A counter, in two halves.
fn counts(counter: u64, i: &Instruction, f: Flags) -> Outcome
    ensures { result ≡ counts_of counter i.now f }
{
    Outcome {
        also: Some(counter >> 32),
        ..gives(counter, i, f)
    }
}

/// A trap behind the instruction.
fn breaks(i: &Instruction, f: Flags) -> Outcome
    ensures { result ≡ breaks_of i.now f }
{
    Outcome {
        acted: Acted::Trap(Fault::Breakpoint),
        ..passes(i, f)
    }
}

/// A number goes to MXCSR, unless it has a reserved bit.
fn loads_control(number: u64, i: &Instruction, f: Flags) -> Outcome
    ensures outcome { result ≡ loads_control_of number i.now f }
    ensures fits { OutcomeFits result f }
{
    if number < 0x1_0000 {
        gives(number, i, f)
    } else {
        faults(Fault::General, i, f)
    }
}

/// What is enabled of the extended state, in two halves; it is the only register of its kind, number 0.
#[tactic(auto, unfolding(num_lanes::specs::Components::component_set))]
fn tells_enabled(number: u64, i: &Instruction, f: Flags) -> Outcome
    ensures outcome { result ≡ tells_enabled_of number i.now f }
    ensures fits { OutcomeFits result f }
{
    if number == 0 {
        counts(u64::from(XCR0), i, f)
    } else {
        faults(Fault::General, i, f)
    }
}

/// What the core does by itself.
#[tactic(auto, unfolding(crate::specs::Result::core_outcome))]
fn core_outcome(
    op: CoreOp,
    i: &Instruction,
    a: u64,
    b: u64,
    c: u64,
    f: Flags,
    steps: u64,
) -> Outcome
    requires a { a < 2 ^ bits_in i.now.size }
    requires b { b < 2 ^ bits_in i.now.source_size }
    requires condition { i.now.condition < 16 }
    ensures outcome { result ≡ core_outcome_of op i.now a b c f steps }
    ensures fits { OutcomeFits result f }
{
    match op {
        CoreOp::Mov | CoreOp::Movzx | CoreOp::Lea | CoreOp::Movnti => gives(b, i, f),
        CoreOp::Movbe => gives(reversed(i.source_size, b), i, f),
        CoreOp::Movsx | CoreOp::Movsxd | CoreOp::Cbw => gives(i.source_size.sign_extend(b), i, f),
        CoreOp::Xchg => exchanges(a, b, i, f),
        CoreOp::Push => pushes(b, i, f),
        CoreOp::Pop | CoreOp::Leave => pops(i, gives(b, i, f)),
        CoreOp::Pushf => pushes(f.word(), i, f),
        CoreOp::Popf => pops(i, passes(i, Flags::from_word(b))),
        CoreOp::Call => calls(b, i, f),
        CoreOp::Ret => returns(b, i, f),
        CoreOp::Jmp => jumps(true, b, i, f),
        CoreOp::Jcc => jumps(f.holds(i.condition), b, i, f),
        CoreOp::Loopne => loops(!f.zf, a, b, i, f),
        CoreOp::Loope => loops(f.zf, a, b, i, f),
        CoreOp::Loop => loops(true, a, b, i, f),
        CoreOp::Jrcxz => jumps(a == 0, b, i, f),
        CoreOp::Cmovcc => gives(if f.holds(i.condition) { b } else { a }, i, f),
        CoreOp::Setcc => gives(if f.holds(i.condition) { 1 } else { 0 }, i, f),
        CoreOp::Cwd => gives(sign_bits(i.size, b), i, f),
        CoreOp::Bswap => gives(reversed(i.size, a), i, f),
        CoreOp::Cmc => passes(i, Flags { cf: !f.cf, ..f }),
        CoreOp::Clc => passes(i, Flags { cf: false, ..f }),
        CoreOp::Stc => passes(i, Flags { cf: true, ..f }),
        CoreOp::Cld => passes(i, Flags { df: false, ..f }),
        CoreOp::Std => passes(i, Flags { df: true, ..f }),
        CoreOp::Sahf => passes(i, with_low(f, b)),
        CoreOp::Lahf => gives(f.word(), i, f),
        CoreOp::Int3 => breaks(i, f),
        CoreOp::Hlt => faults(Fault::General, i, f),
        CoreOp::Syscall => calls_system(i, f),
        CoreOp::Rdtsc => counts(steps, i, f),
        CoreOp::Nop | CoreOp::Clflush => passes(i, f),
        CoreOp::Xadd => exchanges_sum(i, a, b, f),
        CoreOp::Cmpxchg => compares(i, a, b, c, f),
        CoreOp::Ldmxcsr => loads_control(b, i, f),
        CoreOp::Stmxcsr => gives(b, i, f),
        CoreOp::Xgetbv => tells_enabled(b, i, f),
        CoreOp::Cpuid | CoreOp::Cmpxchg8b | CoreOp::Vzeroupper | CoreOp::Vzeroall => faults(
            Fault::Undefined,
            i,
            f,
        ),
    }
}

/// A product: its lower half goes to the destination, and its upper half beside it.
fn multiplies(signed: bool, i: &Instruction, b: u64, c: u64, f: Flags) -> Outcome
    ensures { result ≡ multiplies_of signed i.now b c f }
{
    let mut flags = f;
    let (low, high) = multiply(i.size.bytes(), signed, c, b, &mut flags);
    Outcome {
        also: Some(high),
        ..gives(low, i, flags)
    }
}

/// A product whose upper half goes to the destination, and whose lower half goes beside it.
fn multiplies_freely(i: &Instruction, b: u64, c: u64, f: Flags) -> Outcome
    ensures { result ≡ multiplies_freely_of i.now b c f }
{
    let mut unused = f;
    let (low, high) = multiply(i.size.bytes(), false, c, b, &mut unused);
    Outcome {
        also: Some(low),
        ..gives(high, i, f)
    }
}

/// A quotient and its remainder.
fn divides(signed: bool, i: &Instruction, high: u64, low: u64, by: u64, f: Flags) -> Outcome
    ensures outcome { result ≡ divides_of signed i.now high low by f }
    ensures fits { OutcomeFits result f }
{
    match divide(i.size.bytes(), signed, high, low, by) {
        Ok((quotient, remainder)) => Outcome {
            also: Some(remainder),
            ..gives(quotient, i, f)
        },
        Err(_) => faults(Fault::Divide, i, f),
    }
}

/// The value and the flags of one operation go to the destination.
fn computes(op: GprOp, i: &Instruction, a: u64, b: u64, f: Flags) -> Outcome
    requires { IsTrue (is_alu (Op.Gpr op)) }
    ensures { result ≡ computes_of op i.now a b f }
{
    let mut flags = f;
    let value = alu(Op::Gpr(op), i.size.bytes(), a, b, &mut flags);
    gives(value, i, flags)
}

/// Arithmetic.
#[tactic(auto, unfolding(crate::specs::Result::gpr_outcome))]
fn gpr_outcome(op: GprOp, i: &Instruction, a: u64, b: u64, c: u64, f: Flags) -> Outcome
    ensures outcome { result ≡ gpr_outcome_of op i.now a b c f }
    ensures fits { OutcomeFits result f }
{
    match op {
        GprOp::Add
        | GprOp::Or
        | GprOp::Adc
        | GprOp::Sbb
        | GprOp::And
        | GprOp::Sub
        | GprOp::Xor
        | GprOp::Cmp
        | GprOp::Test
        | GprOp::Not
        | GprOp::Neg
        | GprOp::Inc
        | GprOp::Dec
        | GprOp::Adcx
        | GprOp::Adox => computes(op, i, a, b, f),
        GprOp::Mul => multiplies(false, i, b, c, f),
        GprOp::Imul => multiplies(true, i, b, c, f),
        GprOp::Mulx => multiplies_freely(i, b, c, f),
        GprOp::Div => divides(false, i, c, a, b, f),
        GprOp::Idiv => divides(true, i, c, a, b, f),
    }
}

/// A shift or a rotate, where `b` is the second operand of a double shift.
fn shifts(op: BitOp, i: &Instruction, a: u64, b: u64, count: u64, f: Flags) -> Outcome
    ensures { result ≡ shifts_of op i.now a b count f }
{
    let mut flags = f;
    let value = shift(
        Op::Bit(op),
        i.size.bytes(),
        a,
        b,
        (count % 256) as u8,
        &mut flags,
    );
    gives(value, i, flags)
}

/// The value and the flags of one operation on bits.
fn picks(op: BitOp, i: &Instruction, a: u64, b: u64, f: Flags) -> Outcome
    ensures { result ≡ picks_of op i.now a b f }
{
    let mut flags = f;
    let value = bits(Op::Bit(op), i.size.bytes(), a, b, &mut flags);
    gives(value, i, flags)
}

/// A scan; where the source is 0 the destination stays.
fn scans(op: BitOp, i: &Instruction, a: u64, b: u64, f: Flags) -> Outcome
    ensures { result ≡ scans_of op i.now a b f }
{
    let outcome = picks(op, i, a, b, f);
    Outcome {
        destination: if b == 0 { None } else { outcome.destination },
        ..outcome
    }
}

/// Shifts, rotates, and operations on bits.
#[tactic(auto, unfolding(crate::specs::Result::bit_outcome))]
fn bit_outcome(op: BitOp, i: &Instruction, a: u64, b: u64, c: u64, f: Flags) -> Outcome
    ensures outcome { result ≡ bit_outcome_of op i.now a b c f }
    ensures fits { OutcomeFits result f }
{
    match op {
        BitOp::Rol | BitOp::Ror | BitOp::Rcl | BitOp::Rcr | BitOp::Shl | BitOp::Shr | BitOp::Sar =>
            shifts(op, i, a, 0, b, f),
        BitOp::Shld | BitOp::Shrd => shifts(op, i, a, b, c, f),
        BitOp::Bsf | BitOp::Bsr => scans(op, i, a, b, f),
        BitOp::Bt
        | BitOp::Bts
        | BitOp::Btr
        | BitOp::Btc
        | BitOp::Popcnt
        | BitOp::Tzcnt
        | BitOp::Lzcnt
        | BitOp::Blsr
        | BitOp::Blsmsk
        | BitOp::Blsi => picks(op, i, a, b, f),
        BitOp::Andn | BitOp::Pext | BitOp::Pdep => picks(op, i, c, b, f),
        BitOp::Bzhi | BitOp::Bextr | BitOp::Shlx | BitOp::Sarx | BitOp::Shrx | BitOp::Rorx => picks(
            op, i, b, c, f,
        ),
    }
}

/// How many bits of an opmask count.
fn opmask_bits(size: Size) -> u8
    ensures value { result ≡ bits_in size }
    ensures fits { IsTrue (is_width result) }
{
    match size {
        Size::Byte => 8,
        Size::Word => 16,
        Size::Double => 32,
        Size::Quad => 64,
    }
}

/// The value of one operation on opmasks, by its first source and its second.
fn combines(op: MaskOp, i: &Instruction, first: u64, second: u64, f: Flags) -> Outcome
    requires { IsTrue (is_combining op) }
    ensures { result ≡ combines_of op i.now first second f }
{
    gives(
        logic(Op::Mask(op), opmask_bits(i.size), first, second),
        i,
        f,
    )
}

/// An opmask shifted by a count.
fn shifts_opmask(left: bool, i: &Instruction, number: u64, count: u64, f: Flags) -> Outcome
    ensures { result ≡ shifts_opmask_of left i.now number count f }
{
    let count = (count % 256) as u8;
    gives(shift_opmask(left, opmask_bits(i.size), number, count), i, f)
}

/// The flags of a test of two opmasks.
fn tests(op: MaskOp, i: &Instruction, a: u64, b: u64, f: Flags) -> Outcome
    requires { IsTrue (is_testing op) }
    ensures { result ≡ tests_of op i.now a b f }
{
    let (zf, cf) = test(Op::Mask(op), opmask_bits(i.size), a, b);
    let flags = Flags {
        zf,
        cf,
        pf: false,
        af: false,
        sf: false,
        ovf: false,
        ..f
    };
    passes(i, flags)
}

/// Operations on opmasks.
#[tactic(auto, unfolding(crate::specs::Result::mask_outcome))]
fn mask_outcome(op: MaskOp, i: &Instruction, a: u64, b: u64, c: u64, f: Flags) -> Outcome
    ensures outcome { result ≡ mask_outcome_of op i.now a b c f }
    ensures fits { OutcomeFits result f }
{
    match op {
        MaskOp::Kand
        | MaskOp::Kandn
        | MaskOp::Kor
        | MaskOp::Kxnor
        | MaskOp::Kxor
        | MaskOp::Kadd
        | MaskOp::Kunpck => combines(op, i, c, b, f),
        MaskOp::Knot | MaskOp::Kmov => combines(op, i, b, 0, f),
        MaskOp::Kortest | MaskOp::Ktest => tests(op, i, a, b, f),
        MaskOp::Kshiftr => shifts_opmask(false, i, b, c, f),
        MaskOp::Kshiftl => shifts_opmask(true, i, b, c, f),
    }
}

/// What comes of an instruction: `a` is the number of its destination, `b` that of its source, `c` that of what is read beside these.
#[tactic(auto, unfolding(crate::specs::Result::outcome_of))]
pub(crate) fn outcome(i: &Instruction, a: u64, b: u64, c: u64, f: Flags, steps: u64) -> Outcome
    requires a { a < 2 ^ bits_in i.now.size }
    requires b { b < 2 ^ bits_in i.now.source_size }
    requires condition { i.now.condition < 16 }
    ensures outcome { result ≡ outcome_of i.now a b c f steps }
    ensures fits { OutcomeFits result f }
{
    match i.op {
        Op::Core(op) => core_outcome(op, i, a, b, c, f, steps),
        Op::Gpr(op) => gpr_outcome(op, i, a, b, c, f),
        Op::Bit(op) => bit_outcome(op, i, a, b, c, f),
        Op::Mask(op) => mask_outcome(op, i, a, b, c, f),
        Op::String(_)
        | Op::Lane(_)
        | Op::Cross(_)
        | Op::Width(_)
        | Op::Mac(_)
        | Op::Vector(_)
        | Op::Gather(_)
        | Op::Xsave(_) => faults(Fault::Undefined, i, f),
    }
}
