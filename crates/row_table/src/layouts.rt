//! What a list of operands says: what stands where, and which bytes follow the opcode.
ghost use Rattle.std.specs.Prelude.{◌≡◌};
ghost use Rattle.row_table.specs.Letters.{layout_of};

use crate::kinds::{Extent, Form, Layout, Operands, Place, Spot};

macro_rules! layouts {
    ($(($operands:ident: $first:ident $first_size:ident, $second:ident $second_size:ident, $third:ident $third_size:ident,
        $fourth:ident $fourth_size:ident; $modrm:literal $immediate:literal $form:expr)),*) => {
        [$(Layout {
            first: Place { spot: Spot::$first, size: Extent::$first_size },
            second: Place { spot: Spot::$second, size: Extent::$second_size },
            third: Place { spot: Spot::$third, size: Extent::$third_size },
            fourth: Place { spot: Spot::$fourth, size: Extent::$fourth_size },
            modrm: $modrm,
            immediate: $immediate,
            form: $form,
        }),*]
    };
}

/// What each list of operands says, in the order of `Operands`: its four places, whether ModRM follows the
/// opcode, the size of the immediate as a code, and which form of ModRM is taken.
#[rattlefmt::skip]
static LAYOUTS: [Layout; 92] = layouts![
    (Implied: Absent Own, Absent Own, Absent Own, Absent Own; false 0 Form::Either),
    (OpcodeReg: OpcodeReg Sized, Absent Own, Absent Own, Absent Own; false 0 Form::Either),
    (RaxOpcodeReg: Rax Sized, OpcodeReg Sized, Absent Own, Absent Own; false 0 Form::Either),
    (OpcodeRegIb: OpcodeReg Byte, Immediate Byte, Absent Own, Absent Own; false 1 Form::Either),
    (OpcodeRegIv: OpcodeReg Sized, Immediate Sized, Absent Own, Absent Own; false 11 Form::Either),
    (Ib: Immediate Byte, Absent Own, Absent Own, Absent Own; false 1 Form::Either),
    (Iw: Immediate Word, Absent Own, Absent Own, Absent Own; false 2 Form::Either),
    (Iz: Immediate Limited, Absent Own, Absent Own, Absent Own; false 10 Form::Either),
    (Jb: Relative Byte, Absent Own, Absent Own, Absent Own; false 1 Form::Either),
    (Jz: Relative Limited, Absent Own, Absent Own, Absent Own; false 4 Form::Either),
    (AlIb: Rax Byte, Immediate Byte, Absent Own, Absent Own; false 1 Form::Either),
    (RaxIz: Rax Sized, Immediate Limited, Absent Own, Absent Own; false 10 Form::Either),
    (AlOb: Rax Byte, Offset Byte, Absent Own, Absent Own; false 12 Form::Either),
    (RaxOv: Rax Sized, Offset Sized, Absent Own, Absent Own; false 12 Form::Either),
    (ObAl: Offset Byte, Rax Byte, Absent Own, Absent Own; false 12 Form::Either),
    (OvRax: Offset Sized, Rax Sized, Absent Own, Absent Own; false 12 Form::Either),
    (Eb: Rm Byte, Absent Own, Absent Own, Absent Own; true 0 Form::Either),
    (Ev: Rm Sized, Absent Own, Absent Own, Absent Own; true 0 Form::Either),
    (EbGb: Rm Byte, Reg Byte, Absent Own, Absent Own; true 0 Form::Either),
    (EvGv: Rm Sized, Reg Sized, Absent Own, Absent Own; true 0 Form::Either),
    (GbEb: Reg Byte, Rm Byte, Absent Own, Absent Own; true 0 Form::Either),
    (GvEv: Reg Sized, Rm Sized, Absent Own, Absent Own; true 0 Form::Either),
    (GvEb: Reg Sized, Rm Byte, Absent Own, Absent Own; true 0 Form::Either),
    (GvEw: Reg Sized, Rm Word, Absent Own, Absent Own; true 0 Form::Either),
    (GvEd: Reg Sized, Rm Double, Absent Own, Absent Own; true 0 Form::Either),
    (EbIb: Rm Byte, Immediate Byte, Absent Own, Absent Own; true 1 Form::Either),
    (EvIb: Rm Sized, Immediate Byte, Absent Own, Absent Own; true 1 Form::Either),
    (EvIz: Rm Sized, Immediate Limited, Absent Own, Absent Own; true 10 Form::Either),
    (EbOne: Rm Byte, One Byte, Absent Own, Absent Own; true 0 Form::Either),
    (EvOne: Rm Sized, One Byte, Absent Own, Absent Own; true 0 Form::Either),
    (EbCl: Rm Byte, Cl Byte, Absent Own, Absent Own; true 0 Form::Either),
    (EvCl: Rm Sized, Cl Byte, Absent Own, Absent Own; true 0 Form::Either),
    (GvEvIb: Reg Sized, Rm Sized, Immediate Byte, Absent Own; true 1 Form::Either),
    (GvEvIz: Reg Sized, Rm Sized, Immediate Limited, Absent Own; true 10 Form::Either),
    (EvGvIb: Rm Sized, Reg Sized, Immediate Byte, Absent Own; true 1 Form::Either),
    (EvGvCl: Rm Sized, Reg Sized, Cl Byte, Absent Own; true 0 Form::Either),
    (GvM: Reg Sized, Memory Own, Absent Own, Absent Own; true 0 Form::Memory),
    (MvGv: Memory Sized, Reg Sized, Absent Own, Absent Own; true 0 Form::Memory),
    (M: Memory Own, Absent Own, Absent Own, Absent Own; true 0 Form::Memory),
    (R: Rm Own, Absent Own, Absent Own, Absent Own; true 0 Form::Register),
    (ByteD0: Absent Own, Absent Own, Absent Own, Absent Own; true 0 Form::Exactly(0xd0)),
    (GyByEy: Reg Scalar, Vvvv Scalar, Rm Scalar, Absent Own; true 0 Form::Either),
    (GyEyBy: Reg Scalar, Rm Scalar, Vvvv Scalar, Absent Own; true 0 Form::Either),
    (ByEy: Vvvv Scalar, Rm Scalar, Absent Own, Absent Own; true 0 Form::Either),
    (GyEyIb: Reg Scalar, Rm Scalar, Immediate Byte, Absent Own; true 1 Form::Either),
    (VxHxWx: VectorReg Vector, VectorVvvv Vector, VectorRm Vector, Absent Own; true 0 Form::Either),
    (VxHxWxIb: VectorReg Vector, VectorVvvv Vector, VectorRm Vector, Immediate Byte; true 1 Form::Either),
    (VxHxWdq: VectorReg Vector, VectorVvvv Vector, VectorRm DoubleQuad, Absent Own; true 0 Form::Either),
    (VxHxWxLx: VectorReg Vector, VectorVvvv Vector, VectorRm Vector, VectorImmediate Vector; true 1 Form::Either),
    (VxWx: VectorReg Vector, VectorRm Vector, Absent Own, Absent Own; true 0 Form::Either),
    (VxWdq: VectorReg Vector, VectorRm DoubleQuad, Absent Own, Absent Own; true 0 Form::Either),
    (VxWxIb: VectorReg Vector, VectorRm Vector, Immediate Byte, Absent Own; true 1 Form::Either),
    (VxWxXmm0: VectorReg Vector, VectorRm Vector, Xmm0 Vector, Absent Own; true 0 Form::Either),
    (WxVx: VectorRm Vector, VectorReg Vector, Absent Own, Absent Own; true 0 Form::Either),
    (WxVxIb: VectorRm Vector, VectorReg Vector, Immediate Byte, Absent Own; true 1 Form::Either),
    (HxWxIb: VectorVvvv Vector, VectorRm Vector, Immediate Byte, Absent Own; true 1 Form::Either),
    (HxUxIb: VectorVvvv Vector, VectorRm Vector, Immediate Byte, Absent Own; true 1 Form::Register),
    (UxIb: VectorRm Vector, Immediate Byte, Absent Own, Absent Own; true 1 Form::Register),
    (VxMx: VectorReg Vector, Memory Vector, Absent Own, Absent Own; true 0 Form::Memory),
    (VxMxIb: VectorReg Vector, Memory Vector, Immediate Byte, Absent Own; true 1 Form::Memory),
    (MxVx: Memory Vector, VectorReg Vector, Absent Own, Absent Own; true 0 Form::Memory),
    (VxHxMx: VectorReg Vector, VectorVvvv Vector, Memory Vector, Absent Own; true 0 Form::Memory),
    (VxHxMxIb: VectorReg Vector, VectorVvvv Vector, Memory Vector, Immediate Byte; true 1 Form::Memory),
    (MxHxVx: Memory Vector, VectorVvvv Vector, VectorReg Vector, Absent Own; true 0 Form::Memory),
    (VxHxUx: VectorReg Vector, VectorVvvv Vector, VectorRm Vector, Absent Own; true 0 Form::Register),
    (VxHxUxIb: VectorReg Vector, VectorVvvv Vector, VectorRm Vector, Immediate Byte; true 1 Form::Register),
    (UxHxVx: VectorRm Vector, VectorVvvv Vector, VectorReg Vector, Absent Own; true 0 Form::Register),
    (VxUx: VectorReg Vector, VectorRm Vector, Absent Own, Absent Own; true 0 Form::Register),
    (VxUxIb: VectorReg Vector, VectorRm Vector, Immediate Byte, Absent Own; true 1 Form::Register),
    (UxVx: VectorRm Vector, VectorReg Vector, Absent Own, Absent Own; true 0 Form::Register),
    (VxEv: VectorReg Vector, Rm Scalar, Absent Own, Absent Own; true 0 Form::Either),
    (EvVx: Rm Scalar, VectorReg Vector, Absent Own, Absent Own; true 0 Form::Either),
    (VxEvIb: VectorReg Vector, Rm Scalar, Immediate Byte, Absent Own; true 1 Form::Either),
    (VxHxEvIb: VectorReg Vector, VectorVvvv Vector, Rm Scalar, Immediate Byte; true 1 Form::Either),
    (EvVxIb: Rm Scalar, VectorReg Vector, Immediate Byte, Absent Own; true 1 Form::Either),
    (VxRv: VectorReg Vector, Rm Scalar, Absent Own, Absent Own; true 0 Form::Register),
    (GvUx: Reg Scalar, VectorRm Vector, Absent Own, Absent Own; true 0 Form::Register),
    (GvUxIb: Reg Scalar, VectorRm Vector, Immediate Byte, Absent Own; true 1 Form::Register),
    (VxVm: VectorReg Vector, VectorMemory Vector, Absent Own, Absent Own; true 0 Form::Memory),
    (VxVmHx: VectorReg Vector, VectorMemory Vector, VectorVvvv Vector, Absent Own; true 0 Form::Memory),
    (VmVx: VectorMemory Vector, VectorReg Vector, Absent Own, Absent Own; true 0 Form::Memory),
    (KxHxWx: OpmaskReg Own, VectorVvvv Vector, VectorRm Vector, Absent Own; true 0 Form::Either),
    (KxHxWxIb: OpmaskReg Own, VectorVvvv Vector, VectorRm Vector, Immediate Byte; true 1 Form::Either),
    (KxUx: OpmaskReg Own, VectorRm Vector, Absent Own, Absent Own; true 0 Form::Register),
    (VxKx: VectorReg Vector, OpmaskRm Own, Absent Own, Absent Own; true 0 Form::Register),
    (KxKx: OpmaskReg Own, OpmaskRm Own, Absent Own, Absent Own; true 0 Form::Register),
    (KxKxKx: OpmaskReg Own, OpmaskVvvv Own, OpmaskRm Own, Absent Own; true 0 Form::Register),
    (KxKxIb: OpmaskReg Own, OpmaskRm Own, Immediate Byte, Absent Own; true 1 Form::Register),
    (KxKm: OpmaskReg Own, OpmaskRm Own, Absent Own, Absent Own; true 0 Form::Either),
    (MxKx: Memory Own, OpmaskReg Own, Absent Own, Absent Own; true 0 Form::Memory),
    (KxRv: OpmaskReg Own, Rm Scalar, Absent Own, Absent Own; true 0 Form::Register),
    (GvKx: Reg Scalar, OpmaskRm Own, Absent Own, Absent Own; true 0 Form::Register)
];

/// What a list of operands says.
#[inline(always)]
pub fn layout(operands: Operands) -> Layout
    ensures { result ≡ layout_of operands }
{
    LAYOUTS[operands as usize]
}
