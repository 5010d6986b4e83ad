//! Vector instructions of the legacy class and of VEX, as GNU's assembler writes them, and what is refused beside them.
use super::VexTold;
use row_table::{LaneOp, VectorOp};

/// The name of the operation, of those that have rows.
pub(super) fn lane_name(op: LaneOp) -> &'static str {
    match op {
        LaneOp::Padd => "padd",
        LaneOp::Psub => "psub",
        LaneOp::Padds => "padds",
        LaneOp::Paddus => "paddus",
        LaneOp::Psubs => "psubs",
        LaneOp::Psubus => "psubus",
        LaneOp::Pavg => "pavg",
        LaneOp::Pminu => "pminu",
        LaneOp::Pmaxu => "pmaxu",
        LaneOp::Pmins => "pmins",
        LaneOp::Pmaxs => "pmaxs",
        LaneOp::Pand => "pand",
        LaneOp::Pandn => "pandn",
        LaneOp::Por => "por",
        LaneOp::Pxor => "pxor",
        LaneOp::Psign => "psign",
        LaneOp::Pabs => "pabs",
        LaneOp::Pcmpeq => "pcmpeq",
        LaneOp::Pcmpgt => "pcmpgt",
        LaneOp::Psrl => "psrl",
        LaneOp::Psra => "psra",
        LaneOp::Psll => "psll",
        LaneOp::Vpsrlv => "vpsrlv",
        LaneOp::Vpsrav => "vpsrav",
        LaneOp::Vpsllv => "vpsllv",
        LaneOp::Vpror => "vpror",
        LaneOp::Vprol => "vprol",
        LaneOp::Vprorv => "vprorv",
        LaneOp::Vprolv => "vprolv",
        LaneOp::Vpternlog => "vpternlog",
        LaneOp::Vpcmpu => "vpcmpu",
        LaneOp::Vpcmp => "vpcmp",
        LaneOp::Vptestm => "vptestm",
        LaneOp::Vptestnm => "vptestnm",
        LaneOp::Andp => "andp",
        LaneOp::Andnp => "andnp",
        LaneOp::Orp => "orp",
        LaneOp::Xorp => "xorp",
        LaneOp::Movdqa => "movdqa",
        LaneOp::Movdqu => "movdqu",
        LaneOp::Movap => "movap",
        LaneOp::Movup => "movup",
        LaneOp::Movntp => "movntp",
        LaneOp::Movntdq => "movntdq",
        LaneOp::Movntdqa => "movntdqa",
        LaneOp::Lddqu => "lddqu",
        LaneOp::Movd => "movd",
        LaneOp::Movq => "movq",
        LaneOp::Movss => "movss",
        LaneOp::MovssLoad => "movss load",
        LaneOp::Movsd => "movsd",
        LaneOp::MovsdLoad => "movsd load",
        LaneOp::Movlp => "movlp",
        LaneOp::Movhp => "movhp",
        LaneOp::MovhpStore => "movhp store",
        LaneOp::Movhlps => "movhlps",
        LaneOp::Movlhps => "movlhps",
        LaneOp::Movddup => "movddup",
        LaneOp::Movsldup => "movsldup",
        LaneOp::Movshdup => "movshdup",
        LaneOp::Vpmaskmov => "vpmaskmov",
        LaneOp::Vmaskmov => "vmaskmov",
    }
}

/// The name of an operation whose result is a mask of bits.
pub(super) fn vector_name(op: VectorOp) -> &'static str {
    match op {
        VectorOp::Ptest => "ptest",
        VectorOp::Pmovmskb => "pmovmskb",
        VectorOp::Movmskp => "movmskp",
    }
}

/// Sums, minima, averages, signs, and compares, and what is seen in them.
#[rattlefmt::skip]
static ARITHMETIC: [(&'static [u8], VexTold); 38] = [
    // paddb %xmm2,%xmm1
    (&[0x66, 0x0f, 0xfc, 0xca], ("padd", 8, 4, 0, 0)),
    // paddq 0x10(%r9),%xmm9
    (&[0x66, 0x45, 0x0f, 0xd4, 0x49, 0x10], ("padd", 64, 6, 16, 0)),
    // vpaddb %xmm3,%xmm2,%xmm1
    (&[0xc5, 0xe9, 0xfc, 0xcb], ("padd", 8, 4, 0, 2)),
    // vpaddd %ymm3,%ymm2,%ymm1
    (&[0xc5, 0xed, 0xfe, 0xcb], ("padd", 32, 4, 0, 2)),
    // vpaddw %ymm9,%ymm15,%ymm8
    (&[0xc4, 0x41, 0x05, 0xfd, 0xc1], ("padd", 16, 5, 0, 15)),
    // vpaddq -0x20(%r10,%r11,4),%ymm2,%ymm1
    (&[0xc4, 0x81, 0x6d, 0xd4, 0x4c, 0x9a, 0xe0], ("padd", 64, 7, -32, 2)),
    // psubw %xmm2,%xmm1
    (&[0x66, 0x0f, 0xf9, 0xca], ("psub", 16, 4, 0, 0)),
    // vpsubq (%rax),%xmm2,%xmm1
    (&[0xc5, 0xe9, 0xfb, 0x08], ("psub", 64, 4, 0, 2)),
    // paddsb %xmm2,%xmm1
    (&[0x66, 0x0f, 0xec, 0xca], ("padds", 8, 4, 0, 0)),
    // vpaddusw %ymm3,%ymm2,%ymm1
    (&[0xc5, 0xed, 0xdd, 0xcb], ("paddus", 16, 4, 0, 2)),
    // psubsw %xmm2,%xmm1
    (&[0x66, 0x0f, 0xe9, 0xca], ("psubs", 16, 4, 0, 0)),
    // vpsubusb %xmm3,%xmm2,%xmm1
    (&[0xc5, 0xe9, 0xd8, 0xcb], ("psubus", 8, 4, 0, 2)),
    // pavgb %xmm2,%xmm1
    (&[0x66, 0x0f, 0xe0, 0xca], ("pavg", 8, 4, 0, 0)),
    // vpavgw %ymm3,%ymm2,%ymm1
    (&[0xc5, 0xed, 0xe3, 0xcb], ("pavg", 16, 4, 0, 2)),
    // pminub %xmm2,%xmm1
    (&[0x66, 0x0f, 0xda, 0xca], ("pminu", 8, 4, 0, 0)),
    // pminuw %xmm2,%xmm1
    (&[0x66, 0x0f, 0x38, 0x3a, 0xca], ("pminu", 16, 5, 0, 0)),
    // vpminud %ymm3,%ymm2,%ymm1
    (&[0xc4, 0xe2, 0x6d, 0x3b, 0xcb], ("pminu", 32, 5, 0, 2)),
    // pmaxub %xmm2,%xmm1
    (&[0x66, 0x0f, 0xde, 0xca], ("pmaxu", 8, 4, 0, 0)),
    // vpmaxud (%rax),%xmm2,%xmm1
    (&[0xc4, 0xe2, 0x69, 0x3f, 0x08], ("pmaxu", 32, 5, 0, 2)),
    // pminsw %xmm2,%xmm1
    (&[0x66, 0x0f, 0xea, 0xca], ("pmins", 16, 4, 0, 0)),
    // vpminsd %xmm3,%xmm2,%xmm1
    (&[0xc4, 0xe2, 0x69, 0x39, 0xcb], ("pmins", 32, 5, 0, 2)),
    // vpmaxsb %xmm3,%xmm2,%xmm1
    (&[0xc4, 0xe2, 0x69, 0x3c, 0xcb], ("pmaxs", 8, 5, 0, 2)),
    // pmaxsw %xmm2,%xmm1
    (&[0x66, 0x0f, 0xee, 0xca], ("pmaxs", 16, 4, 0, 0)),
    // pand %xmm2,%xmm1
    (&[0x66, 0x0f, 0xdb, 0xca], ("pand", 32, 4, 0, 0)),
    // vpandn %ymm3,%ymm2,%ymm1
    (&[0xc5, 0xed, 0xdf, 0xcb], ("pandn", 32, 4, 0, 2)),
    // por %xmm2,%xmm1
    (&[0x66, 0x0f, 0xeb, 0xca], ("por", 32, 4, 0, 0)),
    // vpxor %ymm3,%ymm2,%ymm1
    (&[0xc5, 0xed, 0xef, 0xcb], ("pxor", 32, 4, 0, 2)),
    // psignb %xmm2,%xmm1
    (&[0x66, 0x0f, 0x38, 0x08, 0xca], ("psign", 8, 5, 0, 0)),
    // vpsignd %ymm3,%ymm2,%ymm1
    (&[0xc4, 0xe2, 0x6d, 0x0a, 0xcb], ("psign", 32, 5, 0, 2)),
    // pabsw (%rax),%xmm1
    (&[0x66, 0x0f, 0x38, 0x1d, 0x08], ("pabs", 16, 5, 0, 0)),
    // vpabsd %ymm3,%ymm1
    (&[0xc4, 0xe2, 0x7d, 0x1e, 0xcb], ("pabs", 32, 5, 0, 0)),
    // pcmpeqb %xmm2,%xmm1
    (&[0x66, 0x0f, 0x74, 0xca], ("pcmpeq", 8, 4, 0, 0)),
    // pcmpeqq %xmm2,%xmm1
    (&[0x66, 0x0f, 0x38, 0x29, 0xca], ("pcmpeq", 64, 5, 0, 0)),
    // vpcmpeqd %ymm3,%ymm2,%ymm1
    (&[0xc5, 0xed, 0x76, 0xcb], ("pcmpeq", 32, 4, 0, 2)),
    // pcmpgtd %xmm2,%xmm1
    (&[0x66, 0x0f, 0x66, 0xca], ("pcmpgt", 32, 4, 0, 0)),
    // vpcmpgtq (%rax),%ymm2,%ymm1
    (&[0xc4, 0xe2, 0x6d, 0x37, 0x08], ("pcmpgt", 64, 5, 0, 2)),
    // ptest %xmm2,%xmm1
    (&[0x66, 0x0f, 0x38, 0x17, 0xca], ("ptest", 64, 5, 0, 0)),
    // vptest (%rax),%ymm1
    (&[0xc4, 0xe2, 0x7d, 0x17, 0x08], ("ptest", 64, 5, 0, 0)),
];

/// Shifts and logic.
#[rattlefmt::skip]
static SHIFTS_AND_LOGIC: [(&'static [u8], VexTold); 22] = [
    // psrlw (%rax),%xmm1
    (&[0x66, 0x0f, 0xd1, 0x08], ("psrl", 16, 4, 0, 0)),
    // vpsrlq %xmm3,%ymm2,%ymm1
    (&[0xc5, 0xed, 0xd3, 0xcb], ("psrl", 64, 4, 0, 2)),
    // psrad %xmm2,%xmm1
    (&[0x66, 0x0f, 0xe2, 0xca], ("psra", 32, 4, 0, 0)),
    // vpslld (%rax),%ymm2,%ymm1
    (&[0xc5, 0xed, 0xf2, 0x08], ("psll", 32, 4, 0, 2)),
    // psrlw $0x1,%xmm1
    (&[0x66, 0x0f, 0x71, 0xd1, 0x01], ("psrl", 16, 5, 0, 0)),
    // psraw $0x2,%xmm1
    (&[0x66, 0x0f, 0x71, 0xe1, 0x02], ("psra", 16, 5, 0, 0)),
    // psllw $0x3,%xmm9
    (&[0x66, 0x41, 0x0f, 0x71, 0xf1, 0x03], ("psll", 16, 6, 0, 0)),
    // vpsrld $0x4,%ymm2,%ymm1
    (&[0xc5, 0xf5, 0x72, 0xd2, 0x04], ("psrl", 32, 5, 0, 1)),
    // vpsrad $0x5,%xmm2,%xmm1
    (&[0xc5, 0xf1, 0x72, 0xe2, 0x05], ("psra", 32, 5, 0, 1)),
    // vpslld $0x6,%ymm9,%ymm15
    (&[0xc4, 0xc1, 0x05, 0x72, 0xf1, 0x06], ("psll", 32, 6, 0, 15)),
    // psrlq $0x7,%xmm1
    (&[0x66, 0x0f, 0x73, 0xd1, 0x07], ("psrl", 64, 5, 0, 0)),
    // vpsllq $0x8,%ymm2,%ymm1
    (&[0xc5, 0xf5, 0x73, 0xf2, 0x08], ("psll", 64, 5, 0, 1)),
    // vpsrlvd %xmm3,%xmm2,%xmm1
    (&[0xc4, 0xe2, 0x69, 0x45, 0xcb], ("vpsrlv", 32, 5, 0, 2)),
    // vpsrlvq %ymm3,%ymm2,%ymm1
    (&[0xc4, 0xe2, 0xed, 0x45, 0xcb], ("vpsrlv", 64, 5, 0, 2)),
    // vpsravd (%rax),%ymm2,%ymm1
    (&[0xc4, 0xe2, 0x6d, 0x46, 0x08], ("vpsrav", 32, 5, 0, 2)),
    // vpsllvd %ymm3,%ymm2,%ymm1
    (&[0xc4, 0xe2, 0x6d, 0x47, 0xcb], ("vpsllv", 32, 5, 0, 2)),
    // vpsllvq (%rax),%xmm2,%xmm1
    (&[0xc4, 0xe2, 0xe9, 0x47, 0x08], ("vpsllv", 64, 5, 0, 2)),
    // andps %xmm2,%xmm1
    (&[0x0f, 0x54, 0xca], ("andp", 32, 3, 0, 0)),
    // andpd %xmm2,%xmm1
    (&[0x66, 0x0f, 0x54, 0xca], ("andp", 64, 4, 0, 0)),
    // vandnps %ymm3,%ymm2,%ymm1
    (&[0xc5, 0xec, 0x55, 0xcb], ("andnp", 32, 4, 0, 2)),
    // vorpd (%rax),%xmm2,%xmm1
    (&[0xc5, 0xe9, 0x56, 0x08], ("orp", 64, 4, 0, 2)),
    // xorps (%rax),%xmm1
    (&[0x0f, 0x57, 0x08], ("xorp", 32, 3, 0, 0)),
];

/// Moves of whole vectors.
#[rattlefmt::skip]
static WHOLE_MOVES: [(&'static [u8], VexTold); 26] = [
    // movdqa (%rax),%xmm1
    (&[0x66, 0x0f, 0x6f, 0x08], ("movdqa", 32, 4, 0, 0)),
    // movdqa %xmm1,0x8(%rax)
    (&[0x66, 0x0f, 0x7f, 0x48, 0x08], ("movdqa", 32, 5, 8, 0)),
    // vmovdqa %ymm3,%ymm1
    (&[0xc5, 0xfd, 0x6f, 0xcb], ("movdqa", 32, 4, 0, 0)),
    // movdqu (%rax),%xmm1
    (&[0xf3, 0x0f, 0x6f, 0x08], ("movdqu", 32, 4, 0, 0)),
    // vmovdqu %ymm1,0x8(%r8)
    (&[0xc4, 0xc1, 0x7e, 0x7f, 0x48, 0x08], ("movdqu", 32, 6, 8, 0)),
    // movaps %xmm2,%xmm1
    (&[0x0f, 0x28, 0xca], ("movap", 32, 3, 0, 0)),
    // movapd %xmm1,(%rax)
    (&[0x66, 0x0f, 0x29, 0x08], ("movap", 64, 4, 0, 0)),
    // vmovapd (%rax),%ymm1
    (&[0xc5, 0xfd, 0x28, 0x08], ("movap", 64, 4, 0, 0)),
    // movups (%rax),%xmm1
    (&[0x0f, 0x10, 0x08], ("movup", 32, 3, 0, 0)),
    // vmovupd %ymm1,(%rax)
    (&[0xc5, 0xfd, 0x11, 0x08], ("movup", 64, 4, 0, 0)),
    // movntps %xmm1,(%rax)
    (&[0x0f, 0x2b, 0x08], ("movntp", 32, 3, 0, 0)),
    // vmovntpd %ymm1,(%rax)
    (&[0xc5, 0xfd, 0x2b, 0x08], ("movntp", 64, 4, 0, 0)),
    // movntdq %xmm1,(%rax)
    (&[0x66, 0x0f, 0xe7, 0x08], ("movntdq", 32, 4, 0, 0)),
    // vmovntdq %ymm1,(%rax)
    (&[0xc5, 0xfd, 0xe7, 0x08], ("movntdq", 32, 4, 0, 0)),
    // movntdqa (%rax),%xmm1
    (&[0x66, 0x0f, 0x38, 0x2a, 0x08], ("movntdqa", 32, 5, 0, 0)),
    // vmovntdqa (%rax),%ymm1
    (&[0xc4, 0xe2, 0x7d, 0x2a, 0x08], ("movntdqa", 32, 5, 0, 0)),
    // lddqu (%rax),%xmm1
    (&[0xf2, 0x0f, 0xf0, 0x08], ("lddqu", 32, 4, 0, 0)),
    // vlddqu (%rax),%ymm1
    (&[0xc5, 0xff, 0xf0, 0x08], ("lddqu", 32, 4, 0, 0)),
    // vmaskmovps (%rax),%ymm2,%ymm1
    (&[0xc4, 0xe2, 0x6d, 0x2c, 0x08], ("vmaskmov", 32, 5, 0, 2)),
    // vmaskmovpd 0x8(%r9),%xmm12,%xmm1
    (&[0xc4, 0xc2, 0x19, 0x2d, 0x49, 0x08], ("vmaskmov", 64, 6, 8, 12)),
    // vmaskmovps %xmm1,%xmm2,(%rax)
    (&[0xc4, 0xe2, 0x69, 0x2e, 0x08], ("vmaskmov", 32, 5, 0, 2)),
    // vmaskmovpd %ymm9,%ymm2,-0x8(%rax)
    (&[0xc4, 0x62, 0x6d, 0x2f, 0x48, 0xf8], ("vmaskmov", 64, 6, -8, 2)),
    // vpmaskmovd (%rax),%xmm2,%xmm1
    (&[0xc4, 0xe2, 0x69, 0x8c, 0x08], ("vpmaskmov", 32, 5, 0, 2)),
    // vpmaskmovq (%rax),%ymm15,%ymm1
    (&[0xc4, 0xe2, 0x85, 0x8c, 0x08], ("vpmaskmov", 64, 5, 0, 15)),
    // vpmaskmovd %ymm1,%ymm2,0x10(%rax)
    (&[0xc4, 0xe2, 0x6d, 0x8e, 0x48, 0x10], ("vpmaskmov", 32, 6, 16, 2)),
    // vpmaskmovq %xmm1,%xmm2,(%rax)
    (&[0xc4, 0xe2, 0xe9, 0x8e, 0x08], ("vpmaskmov", 64, 5, 0, 2)),
];

/// Moves of elements, and forms that say something of the encoding.
#[rattlefmt::skip]
static ELEMENT_MOVES: [(&'static [u8], VexTold); 51] = [
    // movd %eax,%xmm1
    (&[0x66, 0x0f, 0x6e, 0xc8], ("movd", 32, 4, 0, 0)),
    // movq %rax,%xmm9
    (&[0x66, 0x4c, 0x0f, 0x6e, 0xc8], ("movd", 64, 5, 0, 0)),
    // vmovd 0x4(%rax),%xmm1
    (&[0xc5, 0xf9, 0x6e, 0x48, 0x04], ("movd", 32, 5, 4, 0)),
    // vmovq %r9,%xmm1
    (&[0xc4, 0xc1, 0xf9, 0x6e, 0xc9], ("movd", 64, 5, 0, 0)),
    // movd %xmm1,%eax
    (&[0x66, 0x0f, 0x7e, 0xc8], ("movd", 32, 4, 0, 0)),
    // vmovd %xmm1,(%rax)
    (&[0xc5, 0xf9, 0x7e, 0x08], ("movd", 32, 4, 0, 0)),
    // vmovq %xmm9,%rax
    (&[0xc4, 0x61, 0xf9, 0x7e, 0xc8], ("movd", 64, 5, 0, 0)),
    // movq (%rax),%xmm1
    (&[0xf3, 0x0f, 0x7e, 0x08], ("movq", 64, 4, 0, 0)),
    // vmovq (%rax),%xmm1
    (&[0xc5, 0xfa, 0x7e, 0x08], ("movq", 64, 4, 0, 0)),
    // movq %xmm1,(%rax)
    (&[0x66, 0x0f, 0xd6, 0x08], ("movq", 64, 4, 0, 0)),
    // vmovq %xmm1,0x8(%rax)
    (&[0xc5, 0xf9, 0xd6, 0x48, 0x08], ("movq", 64, 5, 8, 0)),
    // movss (%rax),%xmm1
    (&[0xf3, 0x0f, 0x10, 0x08], ("movss load", 32, 4, 0, 0)),
    // movss %xmm2,%xmm1
    (&[0xf3, 0x0f, 0x10, 0xca], ("movss", 32, 4, 0, 0)),
    // movss %xmm1,(%rax)
    (&[0xf3, 0x0f, 0x11, 0x08], ("movss", 32, 4, 0, 0)),
    // vmovss (%rax),%xmm1
    (&[0xc5, 0xfa, 0x10, 0x08], ("movss load", 32, 4, 0, 0)),
    // vmovss %xmm3,%xmm2,%xmm1
    (&[0xc5, 0xea, 0x10, 0xcb], ("movss", 32, 4, 0, 2)),
    // vmovss %xmm1,(%rax)
    (&[0xc5, 0xfa, 0x11, 0x08], ("movss", 32, 4, 0, 0)),
    // movsd (%rax),%xmm1
    (&[0xf2, 0x0f, 0x10, 0x08], ("movsd load", 64, 4, 0, 0)),
    // movsd %xmm2,%xmm1
    (&[0xf2, 0x0f, 0x10, 0xca], ("movsd", 64, 4, 0, 0)),
    // vmovsd %xmm3,%xmm2,%xmm1
    (&[0xc5, 0xeb, 0x10, 0xcb], ("movsd", 64, 4, 0, 2)),
    // vmovsd %xmm1,(%rax)
    (&[0xc5, 0xfb, 0x11, 0x08], ("movsd", 64, 4, 0, 0)),
    // vmovsd.s %xmm3,%xmm2,%xmm1
    (&[0xc5, 0xeb, 0x11, 0xd9], ("movsd", 64, 4, 0, 2)),
    // movss.s %xmm2,%xmm1
    (&[0xf3, 0x0f, 0x11, 0xd1], ("movss", 32, 4, 0, 0)),
    // movlps (%rax),%xmm1
    (&[0x0f, 0x12, 0x08], ("movlp", 64, 3, 0, 0)),
    // movlpd %xmm1,(%rax)
    (&[0x66, 0x0f, 0x13, 0x08], ("movlp", 64, 4, 0, 0)),
    // vmovlpd (%rax),%xmm2,%xmm1
    (&[0xc5, 0xe9, 0x12, 0x08], ("movlp", 64, 4, 0, 2)),
    // vmovlps %xmm1,(%rax)
    (&[0xc5, 0xf8, 0x13, 0x08], ("movlp", 64, 4, 0, 0)),
    // movhps (%rax),%xmm1
    (&[0x0f, 0x16, 0x08], ("movhp", 64, 3, 0, 0)),
    // movhpd %xmm1,(%rax)
    (&[0x66, 0x0f, 0x17, 0x08], ("movhp store", 64, 4, 0, 0)),
    // vmovhps (%rax),%xmm2,%xmm1
    (&[0xc5, 0xe8, 0x16, 0x08], ("movhp", 64, 4, 0, 2)),
    // vmovhpd %xmm1,(%rax)
    (&[0xc5, 0xf9, 0x17, 0x08], ("movhp store", 64, 4, 0, 0)),
    // movhlps %xmm2,%xmm1
    (&[0x0f, 0x12, 0xca], ("movhlps", 64, 3, 0, 0)),
    // vmovhlps %xmm3,%xmm2,%xmm1
    (&[0xc5, 0xe8, 0x12, 0xcb], ("movhlps", 64, 4, 0, 2)),
    // movlhps %xmm2,%xmm1
    (&[0x0f, 0x16, 0xca], ("movlhps", 64, 3, 0, 0)),
    // vmovlhps %xmm3,%xmm2,%xmm1
    (&[0xc5, 0xe8, 0x16, 0xcb], ("movlhps", 64, 4, 0, 2)),
    // movddup (%rax),%xmm1
    (&[0xf2, 0x0f, 0x12, 0x08], ("movddup", 64, 4, 0, 0)),
    // vmovddup %xmm3,%xmm1
    (&[0xc5, 0xfb, 0x12, 0xcb], ("movddup", 64, 4, 0, 0)),
    // vmovddup (%rax),%ymm1
    (&[0xc5, 0xff, 0x12, 0x08], ("movddup", 64, 4, 0, 0)),
    // movsldup %xmm2,%xmm1
    (&[0xf3, 0x0f, 0x12, 0xca], ("movsldup", 32, 4, 0, 0)),
    // vmovshdup %ymm3,%ymm1
    (&[0xc5, 0xfe, 0x16, 0xcb], ("movshdup", 32, 4, 0, 0)),
    // pmovmskb %xmm2,%eax
    (&[0x66, 0x0f, 0xd7, 0xc2], ("pmovmskb", 8, 4, 0, 0)),
    // vpmovmskb %ymm3,%r9d
    (&[0xc5, 0x7d, 0xd7, 0xcb], ("pmovmskb", 8, 4, 0, 0)),
    // movmskps %xmm2,%eax
    (&[0x0f, 0x50, 0xc2], ("movmskp", 32, 3, 0, 0)),
    // vmovmskpd %ymm3,%eax
    (&[0xc5, 0xfd, 0x50, 0xc3], ("movmskp", 64, 4, 0, 0)),
    // vzeroupper
    (&[0xc5, 0xf8, 0x77], ("vzeroupper", 64, 3, 0, 0)),
    // vzeroall
    (&[0xc5, 0xfc, 0x77], ("vzeroall", 64, 3, 0, 0)),
    // W has no meaning: VPMAXSB and VPAND with W.
    (&[0xc4, 0xe2, 0xe9, 0x3c, 0xcb], ("pmaxs", 8, 5, 0, 2)),
    (&[0xc4, 0xe1, 0xe9, 0xdb, 0xcb], ("pand", 32, 5, 0, 2)),
    // L has no meaning: VMOVSS of registers, from memory and to memory with L.
    (&[0xc5, 0xee, 0x10, 0xcb], ("movss", 32, 4, 0, 2)),
    (&[0xc5, 0xfe, 0x10, 0x08], ("movss load", 32, 4, 0, 0)),
    (&[0xc5, 0xff, 0x11, 0x08], ("movsd", 64, 4, 0, 0)),
];

pub(super) fn arithmetic_bytes() -> &'static [(&'static [u8], VexTold)] {
    &ARITHMETIC
}

pub(super) fn shift_and_logic_bytes() -> &'static [(&'static [u8], VexTold)] {
    &SHIFTS_AND_LOGIC
}

pub(super) fn whole_move_bytes() -> &'static [(&'static [u8], VexTold)] {
    &WHOLE_MOVES
}

pub(super) fn element_move_bytes() -> &'static [(&'static [u8], VexTold)] {
    &ELEMENT_MOVES
}

/// What no row takes.
#[rattlefmt::skip]
static VECTOR_REFUSED: [&'static [u8]; 29] = [
    // L of 256 bits where a row has 128 alone: VMOVD, VMOVQ, VMOVLPS, VMOVHLPS, and 66 0F D6.
    &[0xc5, 0xfd, 0x6e, 0xc8],
    &[0xc5, 0xfe, 0x7e, 0x08],
    &[0xc5, 0xec, 0x12, 0x08],
    &[0xc5, 0xec, 0x12, 0xcb],
    &[0xc5, 0xfd, 0xd6, 0x08],
    // VPSRAVQ has no row in VEX.
    &[0xc4, 0xe2, 0xe9, 0x46, 0xcb],
    // vvvv isn't 1111 where it has no use: VMOVDQA, VPABSB, VMOVSS from memory and to memory, VZEROUPPER.
    &[0xc5, 0xe9, 0x6f, 0xc8],
    &[0xc4, 0xe2, 0x69, 0x1c, 0xcb],
    &[0xc5, 0xea, 0x10, 0x08],
    &[0xc5, 0xea, 0x11, 0x08],
    &[0xc5, 0xf0, 0x77],
    // A register where memory is needed: MOVNTDQ, MOVNTDQA, LDDQU, MOVLPD, VMOVNTPS.
    &[0x66, 0x0f, 0xe7, 0xc1],
    &[0x66, 0x0f, 0x38, 0x2a, 0xc1],
    &[0xf2, 0x0f, 0xf0, 0xc1],
    &[0x66, 0x0f, 0x12, 0xc1],
    &[0xc5, 0xf8, 0x2b, 0xc1],
    // Memory where a register is needed: PMOVMSKB, a shift by a number, and of VEX.
    &[0x66, 0x0f, 0xd7, 0x08],
    &[0x66, 0x0f, 0x71, 0x10, 1],
    &[0xc5, 0xf1, 0x72, 0x20, 1],
    // A register where memory is needed, and another W: VMASKMOVPS, VPMASKMOVD; VMASKMOVPD with W.
    &[0xc4, 0xe2, 0x6d, 0x2c, 0xcb],
    &[0xc4, 0xe2, 0x69, 0x8e, 0xcb],
    &[0xc4, 0xe2, 0xed, 0x2d, 0x08],
    // A digit that has no row: 66 0F 73 /4; and PADDB and EMMS of MMX, which have no mark.
    &[0x66, 0x0f, 0x73, 0xe1, 1],
    &[0x0f, 0xfc, 0xc1],
    &[0x0f, 0x77],
    // Another mark than the row's: F3 0F 28, VZEROUPPER with 66.
    &[0xf3, 0x0f, 0x28, 0xc1],
    &[0xc5, 0xf9, 0x77],
    // LOCK before a store, and VADDPS.
    &[0xf0, 0x0f, 0x29, 0x08],
    &[0xc5, 0xf8, 0x58, 0xc1],
];

pub(super) fn vector_refused() -> &'static [&'static [u8]] {
    &VECTOR_REFUSED
}
