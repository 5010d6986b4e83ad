//! Any logic of three bits.
ghost use Rattle.std.specs.Prelude.{◌≡◌, ℕ, ◌%◌, ◌^◌, ◌<◌, ◌≤◌, ◌==◌, if◌then◌else◌};
ghost use Rattle.std.specs.Int.{bit_at};
ghost use Rattle.lane_kernels.specs.LaneOps.{ternary as ternary_of};

/// The bits of `ones` where the mask has a 1, and those of `zeros` elsewhere.
fn select(mask: u64, ones: u64, zeros: u64) -> u64
    ensures { (i : ℕ) → i < 64 → bit_at result i ≡ (if bit_at mask i == 1 then bit_at ones i else bit_at zeros i) }
{
    (mask & ones) | (!mask & zeros)
}

/// A bit of the immediate, in all places.
fn spread(imm: u8, place: u32) -> u64
    requires { place < 8 }
    ensures { (i : ℕ) → i < 64 → bit_at result i ≡ bit_at imm place }
{
    if (imm >> place) % 2 == 1 { u64::MAX } else { 0 }
}

/// Each bit is the immediate's bit at 4 times that of `d`, 2 times that of `a` and once that of `b`.
pub(crate) fn ternary(imm: u8, d: u64, a: u64, b: u64) -> u64
    ensures { (n : ℕ) → n ≤ 64 → result % 2 ^ n ≡ ternary_of n imm d a b }
{
    let high = select(
        a,
        select(b, spread(imm, 7), spread(imm, 6)),
        select(b, spread(imm, 5), spread(imm, 4)),
    );
    let low = select(
        a,
        select(b, spread(imm, 3), spread(imm, 2)),
        select(b, spread(imm, 1), spread(imm, 0)),
    );
    select(d, high, low)
}
