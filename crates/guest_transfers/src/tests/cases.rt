//! Transfers over the pages at 0x1000, 0x2000 and 0x3000.

/// A transfer between pieces and a stream or a file: address and length of each piece; the page that is away at first, by its
/// number, or 0; how many bytes the source or the file has, or the most that the file may have; how many bytes have moved when
/// that page is asked for; and how many move in all, where they aren't put.
pub type Case = (&'static [(u64, u64)], u64, u32, Option<u64>, u64);

static MOVES: [Case; 15] = [
    (&[], 0, 9, None, 0),
    (&[(0x1000, 0)], 1, 9, None, 0),
    (&[(0x1FFF, 1)], 2, 9, None, 1),
    (&[(0x1001, 4095)], 2, 9000, None, 4095),
    (&[(0x1000, 4096)], 0, 4096, None, 4096),
    (&[(0x1000, 4097)], 2, 9000, Some(4096), 4097),
    (&[(0x1000, 12288)], 1, 20000, Some(0), 12288),
    (&[(0x1000, 12288)], 2, 20000, Some(4096), 12288),
    (&[(0x1000, 12288)], 3, 20000, Some(8192), 12288),
    (
        &[(0x1800, 0x1000), (7, 0), (0x2800, 0x800)],
        2,
        20000,
        Some(0x800),
        0x1800,
    ),
    (
        &[(0x1F00, 0x200), (0x1F80, 0x200)],
        2,
        2000,
        Some(0x100),
        0x400,
    ),
    (
        &[(0x3FF0, 16), (0x1000, 16), (0x3FF8, 8)],
        1,
        30,
        Some(16),
        30,
    ),
    (&[(0x1000, 12288)], 0, 3, None, 3),
    (&[(0x1000, 12288)], 2, 4096, Some(4096), 4096),
    (&[(0x2000, 5)], 2, 0, Some(0), 0),
];

pub fn moves() -> &'static [Case] {
    &MOVES
}

// The first two draws behind the number 0.
const FIRST: u64 = 1_442_695_040_888_963_407;

const SECOND: u64 = 1_876_011_003_808_476_466;

// The bytes of these draws.
static DRAWN: [u8; 16] = [
    0x4F, 0x81, 0x67, 0xF7, 0x7E, 0x7B, 0x05, 0x14, 0x32, 0x6D, 0xBA, 0x84, 0x11, 0xEE, 0x08, 0x1A,
];

pub fn drawn() -> &'static [u8] {
    &DRAWN
}

/// How many bytes are drawn to an address from the number 0; how many have come, and the number then, when the page 2 is asked
/// for; the number at the end.
pub type Draw = (u64, u64, Option<(u64, u64)>, u64);

static DRAWS: [Draw; 7] = [
    (0x1000, 0, None, 0),
    (0x1000, 1, None, FIRST),
    (0x1FF8, 8, None, FIRST),
    (0x1000, 9, None, SECOND),
    (0x1FFD, 12, Some((3, 0)), SECOND),
    (0x1FF8, 16, Some((8, FIRST)), SECOND),
    (0x1FF1, 16, Some((15, FIRST)), SECOND),
];

pub fn draws() -> &'static [Draw] {
    &DRAWS
}

/// What comes of a path.
#[derive(Drop)]
pub enum Want {
    Text(&'static str),
    TooLong,
    Fault,
    /// The page 2 is asked for, and the text is this once it is there.
    Waits(&'static str),
}

/// Where a path begins, the bytes that stand there, and what comes of it; there are 0s elsewhere.
pub type PathCase = (u64, &'static str, Want);

static PATHS: [PathCase; 10] = [
    (0x1000, "", Want::Text("")),
    (0x1000, "/bin/x", Want::Text("/bin/x")),
    (0x1FFC, "abc", Want::Text("abc")),
    (0x1FFD, "abc", Want::Waits("abc")),
    (0x3FFF, "", Want::Text("")),
    (0x3FFD, "abc", Want::Fault),
    (0x0FFF, "", Want::Fault),
    (0x7FFF_FFFF_FFFF, "", Want::Fault),
    (0x8000_0000_0000, "", Want::Fault),
    (u64::MAX, "", Want::Fault),
];

pub fn paths() -> &'static [PathCase] {
    &PATHS
}
