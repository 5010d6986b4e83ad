//! The bits by which CPUID tells features, and the words of those that this machine has (SDM volume 2, CPUID, tables 3-8, 3-10
//! and 3-11).

// Leaf 1, ecx.
const SSE3: u32 = 1 << 0;

const SSSE3: u32 = 1 << 9;

const CMPXCHG16B: u32 = 1 << 13;

const SSE4_1: u32 = 1 << 19;

const MOVBE: u32 = 1 << 22;

const POPCNT: u32 = 1 << 23;

const XSAVE: u32 = 1 << 26;

const OSXSAVE: u32 = 1 << 27;

const AVX: u32 = 1 << 28;

// Leaf 1, edx.
const FPU: u32 = 1 << 0;

const TSC: u32 = 1 << 4;

const CMPXCHG8B: u32 = 1 << 8;

const CMOV: u32 = 1 << 15;

const SSE: u32 = 1 << 25;

const SSE2: u32 = 1 << 26;

// Leaf 7, ebx.
const BMI1: u32 = 1 << 3;

const AVX2: u32 = 1 << 5;

const BMI2: u32 = 1 << 8;
/// MOVSB and STOSB are fast behind REP.
const ENHANCED_REP: u32 = 1 << 9;
/// The x87 state holds no FCS and FDS.
const WITHOUT_FCS: u32 = 1 << 13;

const AVX512F: u32 = 1 << 16;

const AVX512DQ: u32 = 1 << 17;

const ADX: u32 = 1 << 19;

const AVX512_IFMA: u32 = 1 << 21;

const AVX512CD: u32 = 1 << 28;

const AVX512BW: u32 = 1 << 30;

const AVX512VL: u32 = 1 << 31;

// Leaf 7, ecx.
const AVX512_VBMI: u32 = 1 << 1;

const AVX512_VBMI2: u32 = 1 << 6;

const AVX512_VNNI: u32 = 1 << 11;

const AVX512_BITALG: u32 = 1 << 12;

const AVX512_VPOPCNTDQ: u32 = 1 << 14;

// Leaf DH, subleaf 1, eax.
const XSAVEOPT: u32 = 1 << 0;

// Leaf 80000001H, ecx.
const LAHF: u32 = 1 << 0;

const LZCNT: u32 = 1 << 5;

// Leaf 80000001H, edx.
const SYSCALL: u32 = 1 << 11;

const EXECUTE_DISABLE: u32 = 1 << 20;

const INTEL_64: u32 = 1 << 29;

/// Leaf 1 in ecx.
pub(crate) const FEATURES_1_ECX: u32 = SSE3
    | SSSE3
    | CMPXCHG16B
    | SSE4_1
    | MOVBE
    | POPCNT
    | XSAVE
    | OSXSAVE
    | AVX;

/// Leaf 1 in edx.
pub(crate) const FEATURES_1_EDX: u32 = FPU | TSC | CMPXCHG8B | CMOV | SSE | SSE2;

/// Leaf 7 in ebx.
pub(crate) const FEATURES_7_EBX: u32 = BMI1
    | AVX2
    | BMI2
    | ENHANCED_REP
    | WITHOUT_FCS
    | AVX512F
    | AVX512DQ
    | ADX
    | AVX512_IFMA
    | AVX512CD
    | AVX512BW
    | AVX512VL;

/// Leaf 7 in ecx.
pub(crate) const FEATURES_7_ECX: u32 = AVX512_VBMI
    | AVX512_VBMI2
    | AVX512_VNNI
    | AVX512_BITALG
    | AVX512_VPOPCNTDQ;

/// Leaf DH and subleaf 1 in eax: which of XSAVE's kin there is.
pub(crate) const SAVE_FEATURES: u32 = XSAVEOPT;

/// Leaf 80000001H in ecx.
pub(crate) const EXTENDED_ECX: u32 = LAHF | LZCNT;

/// Leaf 80000001H in edx.
pub(crate) const EXTENDED_EDX: u32 = SYSCALL | EXECUTE_DISABLE | INTEL_64;
