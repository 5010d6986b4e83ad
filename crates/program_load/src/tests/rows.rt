//! Program files, and what of them stands where. The bytes of a file that aren't of its headers are `place % 251 + 1`.

/// A program that writes `hello` and exits, in one segment: a file header, a program header, code and data.
pub(super) static HELLO: [u8; 159] = [
    0x7F, 0x45, 0x4C, 0x46, 0x02, 0x01, 0x01, 0x00, 0x00, 0x00, 0x00, 0x00, 0x00, 0x00, 0x00, 0x00,
    0x02, 0x00, 0x3E, 0x00, 0x01, 0x00, 0x00, 0x00, 0x78, 0x00, 0x40, 0x00, 0x00, 0x00, 0x00, 0x00,
    0x40, 0x00, 0x00, 0x00, 0x00, 0x00, 0x00, 0x00, 0x00, 0x00, 0x00, 0x00, 0x00, 0x00, 0x00, 0x00,
    0x00, 0x00, 0x00, 0x00, 0x40, 0x00, 0x38, 0x00, 0x01, 0x00, 0x00, 0x00, 0x00, 0x00, 0x00, 0x00,
    0x01, 0x00, 0x00, 0x00, 0x05, 0x00, 0x00, 0x00, 0x00, 0x00, 0x00, 0x00, 0x00, 0x00, 0x00, 0x00,
    0x00, 0x00, 0x40, 0x00, 0x00, 0x00, 0x00, 0x00, 0x00, 0x00, 0x40, 0x00, 0x00, 0x00, 0x00, 0x00,
    0x9F, 0x00, 0x00, 0x00, 0x00, 0x00, 0x00, 0x00, 0x9F, 0x00, 0x00, 0x00, 0x00, 0x00, 0x00, 0x00,
    0x00, 0x10, 0x00, 0x00, 0x00, 0x00, 0x00, 0x00, 0xB8, 0x01, 0x00, 0x00, 0x00, 0xBF, 0x01, 0x00,
    0x00, 0x00, 0x48, 0x8D, 0x35, 0x10, 0x00, 0x00, 0x00, 0xBA, 0x06, 0x00, 0x00, 0x00, 0x0F, 0x05,
    0xB8, 0x3C, 0x00, 0x00, 0x00, 0x31, 0xFF, 0x0F, 0x05, 0x68, 0x65, 0x6C, 0x6C, 0x6F, 0x0A,
];

/// A file's kind and length, and its segments: flags, place in the file, address, and sizes in the file and in memory; then the
/// bytes from some addresses on, the permissions of its pages, and addresses where none is mapped.
pub(super) struct Row {
    pub(super) kind: u8,
    pub(super) len: usize,
    pub(super) segments: &'static [(u64, u64, u64, u64, u64)],
    pub(super) bytes: &'static [(u64, &'static [u8])],
    pub(super) perms: &'static [(u64, u8)],
    pub(super) unmapped: &'static [u64],
}

pub(super) static ROWS: [Row; 6] = [
    // Code, and behind a page of its own data whose zeros go on over two pages.
    Row {
        kind: 2,
        len: 6272,
        segments: &[
            (5, 0, 0x40_0000, 0x1000, 0x1000),
            (6, 0x1000, 0x40_1000, 0x880, 0x2400),
        ],
        bytes: &[
            (0x40_0000, &[127, 69, 76, 70, 2, 1, 1, 0]),
            (0x40_0FF8, &[73, 74, 75, 76, 77, 78, 79, 80]),
            (0x40_1000, &[81, 82, 83, 84]),
            (0x40_187C, &[245, 246, 247, 248, 0, 0, 0, 0]),
            (0x40_1FFC, &[0, 0, 0, 0, 0, 0, 0, 0]),
            (0x40_33FC, &[0, 0, 0, 0, 0, 0, 0, 0]),
        ],
        perms: &[
            (0x40_0000, 5),
            (0x40_1000, 3),
            (0x40_2000, 3),
            (0x40_3000, 3),
        ],
        unmapped: &[0x3F_FFFF, 0x40_4000],
    },
    // A segment that begins and ends in mid-page, the bytes before and behind it zeros; the file has other bytes there.
    Row {
        kind: 2,
        len: 8960,
        segments: &[(4, 0x1234, 0x1_0234, 0x10AC, 0x10AC)],
        bytes: &[
            (0x1_0000, &[0, 0, 0, 0]),
            (0x1_0230, &[0, 0, 0, 0, 143, 144, 145, 146]),
            (0x1_0FFE, &[159, 160, 161, 162]),
            (0x1_12DC, &[140, 141, 142, 143, 0, 0, 0, 0]),
            (0x1_1FFC, &[0, 0, 0, 0]),
        ],
        perms: &[(0x1_0000, 1), (0x1_1000, 1)],
        unmapped: &[0xFFFF, 0x1_2000],
    },
    // The last byte from the file is the last of a page: in a segment that goes on with zeros, and in one that ends there.
    Row {
        kind: 2,
        len: 12288,
        segments: &[
            (6, 0xF00, 0x2_0F00, 0x100, 0x101),
            (4, 0x1800, 0x3_0800, 0x800, 0x800),
            (4, 0x2000, 0x3_1000, 1, 1),
        ],
        bytes: &[
            (0x2_0EFC, &[0, 0, 0, 0, 76, 77, 78, 79]),
            (0x2_0FFC, &[77, 78, 79, 80, 0, 0, 0, 0]),
            (0x3_07FE, &[0, 0, 121, 122]),
            (0x3_0FFE, &[159, 160, 161, 0]),
        ],
        perms: &[(0x2_0000, 3), (0x2_1000, 3), (0x3_0000, 1), (0x3_1000, 1)],
        unmapped: &[0x2_2000, 0x3_2000, 0x1_FFFF],
    },
    // Each set of permissions, a segment each; none in the last.
    Row {
        kind: 2,
        len: 4096,
        segments: &[
            (1, 0x200, 0x10_0200, 0x10, 0x10),
            (2, 0x210, 0x10_1210, 0x10, 0x10),
            (3, 0x220, 0x10_2220, 0x10, 0x10),
            (4, 0x230, 0x10_3230, 0x10, 0x10),
            (5, 0x240, 0x10_4240, 0x10, 0x10),
            (6, 0x250, 0x10_5250, 0x10, 0x10),
            (7, 0x260, 0x10_6260, 0x10, 0x10),
            (0, 0x270, 0x10_7270, 0x10, 0x10),
        ],
        bytes: &[
            (0x10_01FF, &[0, 11, 12]),
            (0x10_120E, &[0, 0, 27, 28]),
            (0x10_2220, &[43]),
            (0x10_322F, &[0, 59]),
            (0x10_424F, &[90, 0]),
            (0x10_524F, &[0, 91, 92]),
            (0x10_6260, &[107, 108]),
        ],
        perms: &[
            (0x10_0000, 4),
            (0x10_1000, 2),
            (0x10_2000, 6),
            (0x10_3000, 1),
            (0x10_4000, 5),
            (0x10_5000, 3),
            (0x10_6000, 7),
            (0x10_7000, 0),
        ],
        unmapped: &[0x10_8000],
    },
    // One that can stand at any address is moved; a segment without bytes from the file, one over three pages, and one as high as may be.
    Row {
        kind: 3,
        len: 512,
        segments: &[
            (6, 0, 0, 0, 1),
            (6, 0x123, 0x12_3123, 0x55, 0x2000),
            (5, 0x100, 0x2AA9_AAAA_B100, 0x80, 0xF00),
        ],
        bytes: &[
            (0x5555_5555_4000, &[0, 0]),
            (0x5555_5567_7122, &[0, 41, 42]),
            (0x5555_5567_7177, &[125, 0, 0]),
            (0x7FFE_FFFF_F0FE, &[0, 0, 6, 7]),
            (0x7FFE_FFFF_F17E, &[132, 133, 0, 0]),
        ],
        perms: &[
            (0x5555_5555_4000, 3),
            (0x5555_5567_7000, 3),
            (0x5555_5567_8000, 3),
            (0x5555_5567_9000, 3),
            (0x7FFE_FFFF_F000, 5),
        ],
        unmapped: &[
            0x5555_5555_3FFF,
            0x5555_5555_5000,
            0x5555_5567_A000,
            0x7FFF_0000_0000,
        ],
    },
    // More pages than there may be frames, each with bytes from the file.
    Row {
        kind: 2,
        len: 0xA800,
        segments: &[(6, 0, 0x40_0000, 0xA800, 0xA800)],
        bytes: &[
            (0x40_0000, &[127, 69, 76, 70, 2, 1, 1, 0]),
            (0x40_0FFE, &[79, 80, 81, 82]),
            (0x40_7FFE, &[137, 138, 139, 140]),
            (0x40_A7FE, &[86, 87, 0, 0]),
        ],
        perms: &[(0x40_0000, 3), (0x40_8000, 3), (0x40_A000, 3)],
        unmapped: &[0x3F_FFFF, 0x40_B000],
    },
];

/// Bytes of `hello` and of its stack, from some addresses on: below the file's first byte's page nothing, behind its last zeros; at
/// the stack pointer the count of arguments, the address of the first and the end of the list; its text, the platform, and the end.
pub(super) static HELLO_BYTES: [(u64, &[u8]); 8] = [
    (0x40_009A, &[101, 108, 108, 111, 10, 0, 0, 0]),
    (0x40_0FFE, &[0, 0]),
    (0x7FFF_FFEF_F000, &[0, 0, 0, 0]),
    (
        0x7FFF_FFFF_EE68,
        &[0, 0, 0, 0, 0, 0, 0, 0, 1, 0, 0, 0, 0, 0, 0, 0],
    ),
    (
        0x7FFF_FFFF_EE78,
        &[213, 239, 255, 255, 255, 127, 0, 0, 0, 0, 0, 0, 0, 0, 0, 0],
    ),
    (0x7FFF_FFFF_EFD4, b"\0hello\0hello\0x86_64\0"),
    (0x7FFF_FFFF_EFE8, &[79, 129, 103, 247, 126, 123, 5, 20]),
    (0x7FFF_FFFF_EFF8, &[0, 0, 0, 0, 0, 0, 0, 0]),
];

/// Its pages, with their permissions, and whether they are of a file.
pub(super) static HELLO_PAGES: [(u64, u8, bool); 4] = [
    (0x40_0000, 5, true),
    (0x7FFF_FFEF_F000, 3, false),
    (0x7FFF_FFFF_DFFF, 3, false),
    (0x7FFF_FFFF_EFFF, 3, false),
];
