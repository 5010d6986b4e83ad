//! The operations of the rows, by the part of the machine that performs them. Each is named as in the
//! Intel SDM, without the letters for the width of its lanes or operands: that is the row's.

/// An operation, and the part of the machine that performs it.
#[derive(Clone, Copy)]
pub enum Op {
    /// Moves, control flow and the machine's own registers.
    Core(CoreOp),
    /// Arithmetic on general registers.
    Gpr(GprOp),
    /// Shifts, rotates and single bits of general registers.
    Bit(BitOp),
    /// Strings in memory.
    String(StringOp),
    /// Vector operations on each lane by itself, and moves of vectors.
    Lane(LaneOp),
    /// Vector operations that move lanes to other places.
    Cross(CrossOp),
    /// Vector operations that change the width of lanes.
    Width(WidthOp),
    /// Products, sums, counts and double shifts of lanes.
    Mac(MacOp),
    /// Opmask registers.
    Mask(MaskOp),
    /// Vector operations whose result is a mask of bits.
    Vector(VectorOp),
    /// Gathers and scatters.
    Gather(GatherOp),
    /// Save areas.
    Xsave(XsaveOp),
}

/// What the core does by itself.
#[derive(Clone, Copy)]
pub enum CoreOp {
    Mov,
    Movsxd,
    Movzx,
    Movsx,
    Movbe,
    Movnti,
    Lea,
    /// Of rAX with itself, opcode 90, it is the no-operation.
    Xchg,
    Push,
    Pop,
    Pushf,
    Popf,
    Leave,
    Call,
    Ret,
    Jmp,
    /// The condition is the low four bits of the opcode, as in `Cmovcc` and `Setcc`.
    Jcc,
    Loopne,
    Loope,
    Loop,
    Jrcxz,
    Cmovcc,
    Setcc,
    /// CBW, CWDE and CDQE, by operand size.
    Cbw,
    /// CWD, CDQ and CQO, by operand size.
    Cwd,
    Bswap,
    Cmc,
    Clc,
    Stc,
    Cld,
    Std,
    Sahf,
    Lahf,
    Int3,
    Hlt,
    Syscall,
    Rdtsc,
    Cpuid,
    /// All no-operations that have no other name, the fences among them.
    Nop,
    Xadd,
    Cmpxchg,
    /// CMPXCHG8B, and with W CMPXCHG16B.
    Cmpxchg8b,
    Xgetbv,
    Ldmxcsr,
    Stmxcsr,
    Clflush,
    Vzeroupper,
    Vzeroall,
}

/// Arithmetic on general registers.
#[derive(Clone, Copy)]
pub enum GprOp {
    Add,
    Or,
    Adc,
    Sbb,
    And,
    Sub,
    Xor,
    Cmp,
    Test,
    Not,
    Neg,
    Inc,
    Dec,
    Mul,
    Imul,
    Div,
    Idiv,
    Mulx,
    Adcx,
    Adox,
}

/// Shifts, rotates and single bits of general registers.
#[derive(Clone, Copy)]
pub enum BitOp {
    Rol,
    Ror,
    Rcl,
    Rcr,
    Shl,
    Shr,
    Sar,
    Shld,
    Shrd,
    Bt,
    Bts,
    Btr,
    Btc,
    Popcnt,
    Bsf,
    Tzcnt,
    Bsr,
    Lzcnt,
    Andn,
    Blsr,
    Blsmsk,
    Blsi,
    Bzhi,
    Pext,
    Pdep,
    Bextr,
    Shlx,
    Sarx,
    Shrx,
    Rorx,
}

/// Strings in memory.
#[derive(Clone, Copy)]
pub enum StringOp {
    Movs,
    Cmps,
    Stos,
    Lods,
    Scas,
}

/// Vector operations on each lane by itself, and moves of vectors.
#[derive(Clone, Copy)]
pub enum LaneOp {
    Padd,
    Psub,
    Padds,
    Paddus,
    Psubs,
    Psubus,
    Pavg,
    Pminu,
    Pmaxu,
    Pmins,
    Pmaxs,
    Pand,
    Pandn,
    Por,
    Pxor,
    Psign,
    Pabs,
    Pcmpeq,
    Pcmpgt,
    Vpcmpu,
    Vpcmp,
    Vptestm,
    Vptestnm,
    Psrl,
    Psra,
    Psll,
    Vpsrlv,
    Vpsrav,
    Vpsllv,
    Vpror,
    Vprol,
    Vprorv,
    Vprolv,
    Vpternlog,
    /// ANDPS and ANDPD.
    Andp,
    Andnp,
    Orp,
    Xorp,
    Movdqa,
    Movdqu,
    /// MOVAPS and MOVAPD.
    Movap,
    Movup,
    Movntp,
    Movntdq,
    Movntdqa,
    Lddqu,
    /// Between a vector register and a general register or memory of 32 or 64 bits.
    Movd,
    Movq,
    /// MOVSS between registers, and to memory.
    Movss,
    /// MOVSS from memory.
    MovssLoad,
    Movsd,
    MovsdLoad,
    /// MOVLPS and MOVLPD.
    Movlp,
    /// MOVHPS and MOVHPD from memory.
    Movhp,
    /// MOVHPS and MOVHPD to memory.
    MovhpStore,
    Movhlps,
    Movlhps,
    Movddup,
    Movsldup,
    Movshdup,
    Vpmaskmov,
    Vmaskmov,
}

/// Vector operations that move lanes to other places.
#[derive(Clone, Copy)]
pub enum CrossOp {
    Punpckl,
    Punpckh,
    Packss,
    Packus,
    Pshufb,
    Pshufd,
    Pshufhw,
    Pshuflw,
    Palignr,
    Valign,
    Vperm,
    Vpermp,
    Vpermq,
    Vpermpd,
    Vpermi2,
    Vpermt2,
    /// By a second source.
    Vpermilp,
    /// By an immediate.
    VpermilpIb,
    Shuf,
    Unpckl,
    Unpckh,
    /// VSHUFI32X4 and its kin.
    Vshuf,
    Vperm2f128,
    Vperm2i128,
    Pblend,
    Blendp,
    Vpblend,
    Pblendv,
    Blendvp,
    Vpblendm,
    /// Of the low lane, or of a general register.
    Broadcast,
    /// Of the low 2, 4 or 8 lanes together.
    Broadcast2,
    Broadcast4,
    Broadcast8,
    /// VPBROADCASTMB2Q and VPBROADCASTMW2D.
    Vpbroadcastm,
    Vpmovm2,
    Vpmov2m,
    /// VINSERTI128 and its kin: a block of 128 or 256 bits.
    Insert128,
    Insert256,
    Extract128,
    Extract256,
    Pinsr,
    Pextr,
    Insertps,
    /// INSERTPS of a number in memory.
    InsertpsLoad,
    Extractps,
    Psrldq,
    Pslldq,
}

/// Vector operations that change the width of lanes, or close up and spread out lanes by a mask.
#[derive(Clone, Copy)]
pub enum WidthOp {
    /// The last letter is the width of the lanes that are widened.
    Pmovsxb,
    Pmovsxw,
    Pmovsxd,
    Pmovzxb,
    Pmovzxw,
    Pmovzxd,
    /// The last letter is the width of the lanes that are narrowed.
    Vpmovusw,
    Vpmovusd,
    Vpmovusq,
    Vpmovsw,
    Vpmovsd,
    Vpmovsq,
    Vpmovw,
    Vpmovd,
    Vpmovq,
    Vpcompress,
    Vpexpand,
}

/// Products, sums, counts and double shifts of lanes.
#[derive(Clone, Copy)]
pub enum MacOp {
    Pmull,
    Pmulh,
    Pmulhu,
    Pmuludq,
    Pmuldq,
    Pmulhrs,
    Phadd,
    Phadds,
    Phsub,
    Phsubs,
    Vplzcnt,
    Vpconflict,
    Vpopcnt,
    Phminposu,
    Vpshufbitqmb,
    Vpshld,
    Vpshrd,
    Vpshldv,
    Vpshrdv,
    Pmaddwd,
    Psadbw,
    Pmaddubsw,
    Vpdpbusd,
    Vpdpbusds,
    Vpdpwssd,
    Vpdpwssds,
    Vpmadd52lu,
    Vpmadd52hu,
    Vpmultishiftqb,
    Mpsadbw,
    Vdbpsadbw,
}

/// Opmask registers.
#[derive(Clone, Copy)]
pub enum MaskOp {
    Kand,
    Kandn,
    Kor,
    Kxnor,
    Kxor,
    Kadd,
    Kunpck,
    Knot,
    Kmov,
    Kortest,
    Ktest,
    Kshiftr,
    Kshiftl,
}

/// Vector operations whose result is a mask of bits.
#[derive(Clone, Copy)]
pub enum VectorOp {
    Ptest,
    Pmovmskb,
    Movmskp,
}

/// Gathers and scatters, by the width of their index.
#[derive(Clone, Copy)]
pub enum GatherOp {
    Vpgatherd,
    Vpgatherq,
    Vpscatterd,
    Vpscatterq,
}

/// Save areas.
#[derive(Clone, Copy)]
pub enum XsaveOp {
    Xsave,
    Xrstor,
    Xsaveopt,
    Xsavec,
}
