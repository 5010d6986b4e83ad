//! What a processor gives for one iteration of each operation, at each size, with DF clear and set, with prefix 67 and
//! without (SDM volume 2, the page of each operation). Among the rows of MOVS are operands that overlap.

/// One iteration, and what it gives.
pub(super) struct Row {
    /// The size in bytes, whether there is a prefix 67, and the base of the segment.
    pub(super) form: (u8, bool, u64),
    /// rax, rsi, rdi and RFLAGS.
    pub(super) before: [u64; 4],
    pub(super) after: [u64; 4],
    /// The sixteen bytes afterwards from four bytes before the destination on, as two numbers.
    pub(super) memory: [u64; 2],
}

/// What stands in memory before, from `FROM` on; all other bytes are 0.
pub(super) const BYTES: [u8; 64] = [
    112, 200, 143, 97, 5, 114, 38, 112, 45, 154, 253, 58, 197, 222, 65, 207, 195, 250, 139, 126,
    59, 244, 172, 4, 23, 70, 158, 19, 251, 100, 243, 9, 211, 35, 182, 134, 155, 239, 9, 248, 45,
    154, 253, 58, 197, 222, 65, 207, 194, 237, 112, 119, 73, 154, 113, 130, 247, 217, 216, 89, 107,
    76, 237, 193,
];

/// Where the bytes stand: on two pages.
pub(super) const FROM: u64 = 0x10_0FE0;

pub(super) const MOVS: [Row; 25] = [
    Row {
        form: (1, false, 0x10_0000),
        before: [0x992A_5514_FAE8_13A9, 0xFF2, 0x10_1005, 0xA53],
        after: [0x992A_5514_FAE8_13A9, 0xFF3, 0x10_1006, 0xA53],
        memory: [0x2DF8_098B_9B86_B623, 0xC2CF_41DE_C53A_FD9A],
    },
    Row {
        form: (1, true, 0x10_0000),
        before: [
            0x50EA_BC72_87DC_4E1C,
            0xFF03_F181_0000_0FED,
            0xC2F7_9663_0010_0FEE,
            0xAC6,
        ],
        after: [0x50EA_BC72_87DC_4E1C, 0xFEE, 0x10_0FEF, 0xAC6],
        memory: [0xFAC3_CFDE_DEC5_3AFD, 0x4617_04AC_F43B_7E8B],
    },
    Row {
        form: (1, false, 0x0),
        before: [0x74C_31B6_D9EF_A2EA, 0x10_0FFA, 0x10_100C, 0x687],
        after: [0x74C_31B6_D9EF_A2EA, 0x10_0FF9, 0x10_100B, 0x687],
        memory: [0xCF41_DE9E_3AFD_9A2D, 0x8271_9A49_7770_EDC2],
    },
    Row {
        form: (1, true, 0x10_0000),
        before: [
            0x6B65_FA68_C812_C075,
            0xF456_58B5_0000_0FFA,
            0x71B6_7945_0010_0FFA,
            0x607,
        ],
        after: [0x6B65_FA68_C812_C075, 0xFF9, 0x10_0FF9, 0x607],
        memory: [0x64FB_139E_4617_04AC, 0xEF9B_86B6_23D3_09F3],
    },
    Row {
        form: (2, false, 0x0),
        before: [0xF8DA_FF4A_B7E1_C412, 0x10_1006, 0x10_0FF8, 0x296],
        after: [0xF8DA_FF4A_B7E1_C412, 0x10_1008, 0x10_0FFA, 0x296],
        memory: [0x139E_F809_04AC_F43B, 0x86B6_23D3_09F3_64FB],
    },
    Row {
        form: (2, true, 0x0),
        before: [
            0x78B4_7987_8553_843F,
            0x37D1_CCF7_0010_0FF6,
            0x1F0F_B2AF_0010_1003,
            0x212,
        ],
        after: [0x78B4_7987_8553_843F, 0x10_0FF8, 0x10_1005, 0x212],
        memory: [0x9EF_04AC_B623_D309, 0x41DE_C53A_FD9A_2DF8],
    },
    Row {
        form: (2, false, 0x0),
        before: [0x93B4_1155_7B1E_1B59, 0x10_0FF1, 0x10_0FE4, 0x643],
        after: [0x93B4_1155_7B1E_1B59, 0x10_0FEF, 0x10_0FE2, 0x643],
        memory: [0x7026_8BFA_618F_C870, 0xCF41_DEC5_3AFD_9A2D],
    },
    Row {
        form: (2, true, 0x10_0000),
        before: [
            0x4048_1181_F54F_1B6B,
            0x3934_3F9D_0000_0FEB,
            0x6FE_10A3_0010_1004,
            0x607,
        ],
        after: [0x4048_1181_F54F_1B6B, 0xFE9, 0x10_1002, 0x607],
        memory: [0xF809_C53A_86B6_23D3, 0xCF41_DEC5_3AFD_9A2D],
    },
    Row {
        form: (4, false, 0x0),
        before: [0x164_0CFD_5E7E_0059, 0x10_0FE8, 0x10_100E, 0x203],
        after: [0x164_0CFD_5E7E_0059, 0x10_0FEC, 0x10_1012, 0x203],
        memory: [0x3AFD_9A2D_DEC5_3AFD, 0xD9F7_8271_9A49_7770],
    },
    Row {
        form: (4, true, 0x10_0000),
        before: [
            0x1D57_D70A_BE6C_2EBC,
            0x60E_D9E1_0000_0FF6,
            0xD8AC_9C13_0010_0FFD,
            0xA13,
        ],
        after: [0x1D57_D70A_BE6C_2EBC, 0xFFA, 0x10_1001, 0xA13],
        memory: [0x4617_04AC_FB13_9E46, 0x2DF8_09EF_9B86_B623],
    },
    Row {
        form: (4, false, 0x10_0000),
        before: [0xB8E8_620E_FEE2_AE3F, 0xFF9, 0x10_0FEC, 0x682],
        after: [0xB8E8_620E_FEE2_AE3F, 0xFF5, 0x10_0FE8, 0x682],
        memory: [0xFB13_9E46_3AFD_9A2D, 0x4AC_F43B_7E8B_FAC3],
    },
    Row {
        form: (4, true, 0xFFFF_FFFF_FFF0_0000),
        before: [
            0x833A_63BA_9131_343F,
            0xFDF7_B997_0020_0FFA,
            0x4898_D325_0010_0FF3,
            0x683,
        ],
        after: [0x833A_63BA_9131_343F, 0x20_0FF6, 0x10_0FEF, 0x683],
        memory: [0x64FB_139E_8BFA_C3CF, 0xF364_FB13_9E46_1704],
    },
    Row {
        form: (8, false, 0x10_0000),
        before: [0xF3C9_CAFF_B024_E07E, 0xFF9, 0x10_1009, 0xA82],
        after: [0xF3C9_CAFF_B024_E07E, 0x1001, 0x10_1011, 0xA82],
        memory: [0xFB13_9E46_2DF8_09EF, 0x4977_70ED_D309_F364],
    },
    Row {
        form: (8, true, 0xFFFF_FFFF_FFF0_0000),
        before: [
            0x25_2F2C_32B4_1166,
            0x8471_E0C5_0020_0FF8,
            0x7713_B205_0010_0FF3,
            0x216,
        ],
        after: [0x25_2F2C_32B4_1166, 0x20_1000, 0x10_0FFB, 0x216],
        memory: [0x139E_4617_8BFA_C3CF, 0xF364_FB13_09F3_64FB],
    },
    Row {
        form: (8, false, 0x10_0000),
        before: [0x434_9EA8_330D_49F4, 0xFEB, 0x10_0FFB, 0x603],
        after: [0x434_9EA8_330D_49F4, 0xFE3, 0x10_0FF3, 0x603],
        memory: [0x41DE_C53A_9E46_1704, 0x9EF_9B86_8BFA_C3CF],
    },
    Row {
        form: (8, true, 0x0),
        before: [
            0xF8EB_3204_7BBB_CFE6,
            0xE7B1_81F9_0010_1006,
            0x5F55_BCBB_0010_0FEB,
            0xE47,
        ],
        after: [0xF8EB_3204_7BBB_CFE6, 0x10_0FFE, 0x10_0FE3, 0xE47],
        memory: [0x9A2D_F809_FD9A_2D70, 0xACF4_3B7E_DEC5_3AFD],
    },
    Row {
        form: (2, false, 0x0),
        before: [0x2DA4_61EB_4195_7943, 0x10_0FFC, 0x10_0FFD, 0x202],
        after: [0x2DA4_61EB_4195_7943, 0x10_0FFE, 0x10_0FFF, 0x202],
        memory: [0xD309_64FB_FB13_9E46, 0x2DF8_09EF_9B86_B623],
    },
    Row {
        form: (2, false, 0x0),
        before: [0xD74E_810A_9B82_6371, 0x10_0FFC, 0x10_0FFB, 0x202],
        after: [0xD74E_810A_9B82_6371, 0x10_0FFE, 0x10_0FFD, 0x202],
        memory: [0xF364_64FB_9E46_1704, 0x9EF_9B86_B623_D309],
    },
    Row {
        form: (2, false, 0x0),
        before: [0x1CDD_4959_15AD_9BF7, 0x10_0FFC, 0x10_0FFC, 0x602],
        after: [0x1CDD_4959_15AD_9BF7, 0x10_0FFA, 0x10_0FFA, 0x602],
        memory: [0x9F3_64FB_139E_4617, 0xF809_EF9B_86B6_23D3],
    },
    Row {
        form: (4, false, 0x0),
        before: [0xBAEB_7806_C59E_DD00, 0x10_0FFC, 0x10_0FFD, 0x202],
        after: [0xBAEB_7806_C59E_DD00, 0x10_1000, 0x10_1001, 0x202],
        memory: [0x9F3_64FB_FB13_9E46, 0x2DF8_09EF_9B86_B623],
    },
    Row {
        form: (4, false, 0x0),
        before: [0x3BA8_9FF1_3576_A0BA, 0x10_0FFC, 0x10_0FFB, 0x202],
        after: [0x3BA8_9FF1_3576_A0BA, 0x10_1000, 0x10_0FFF, 0x202],
        memory: [0x9F3_64FB_9E46_1704, 0x9EF_9B86_B623_D309],
    },
    Row {
        form: (4, false, 0x0),
        before: [0x5C_A96B_1855_237B, 0x10_0FFC, 0x10_0FFC, 0x602],
        after: [0x5C_A96B_1855_237B, 0x10_0FF8, 0x10_0FF8, 0x602],
        memory: [0x9F3_64FB_139E_4617, 0xF809_EF9B_86B6_23D3],
    },
    Row {
        form: (8, false, 0x0),
        before: [0xC7B1_D771_10B8_37FD, 0x10_0FFC, 0x10_0FFD, 0x202],
        after: [0xC7B1_D771_10B8_37FD, 0x10_1004, 0x10_1005, 0x202],
        memory: [0x9F3_64FB_FB13_9E46, 0x2DF8_09EF_86B6_23D3],
    },
    Row {
        form: (8, false, 0x0),
        before: [0x69BC_FE5A_EBCF_18D2, 0x10_0FFC, 0x10_0FFB, 0x202],
        after: [0x69BC_FE5A_EBCF_18D2, 0x10_1004, 0x10_1003, 0x202],
        memory: [0x9F3_64FB_9E46_1704, 0x9EF_9B86_86B6_23D3],
    },
    Row {
        form: (8, false, 0x0),
        before: [0x6F51_D1EC_AA02_F263, 0x10_0FFC, 0x10_0FFC, 0x602],
        after: [0x6F51_D1EC_AA02_F263, 0x10_0FF4, 0x10_0FF4, 0x602],
        memory: [0x9F3_64FB_139E_4617, 0xF809_EF9B_86B6_23D3],
    },
];

pub(super) const CMPS: [Row; 16] = [
    Row {
        form: (1, false, 0x10_0000),
        before: [0xF1AC_9D29_0F1D_4EED, 0xFE8, 0x10_1008, 0xA47],
        after: [0xF1AC_9D29_0F1D_4EED, 0xFE9, 0x10_1009, 0x246],
        memory: [0x3AFD_9A2D_F809_EF9B, 0x7770_EDC2_CF41_DEC5],
    },
    Row {
        form: (1, true, 0xFFFF_FFFF_FFF0_0000),
        before: [
            0x5FDF_2267_673F_0D32,
            0x78C4_7FA9_0020_0FE8,
            0x9671_1D57_0010_1008,
            0xA12,
        ],
        after: [0x5FDF_2267_673F_0D32, 0x20_0FE9, 0x10_1009, 0x246],
        memory: [0x3AFD_9A2D_F809_EF9B, 0x7770_EDC2_CF41_DEC5],
    },
    Row {
        form: (1, false, 0x0),
        before: [0x2FAA_F7E9_E83F_A715, 0x10_0FF6, 0x10_0FEA, 0xE87],
        after: [0x2FAA_F7E9_E83F_A715, 0x10_0FF5, 0x10_0FE9, 0x697],
        memory: [0xDEC5_3AFD_9A2D_7026, 0xF43B_7E8B_FAC3_CF41],
    },
    Row {
        form: (1, true, 0x10_0000),
        before: [
            0xB3F5_6E3E_83C4_68B7,
            0xD983_2DA7_0000_0FE8,
            0x91B5_827D_0010_1005,
            0xE13,
        ],
        after: [0xB3F5_6E3E_83C4_68B7, 0xFE7, 0x10_1004, 0x613],
        memory: [0x2DF8_09EF_9B86_B623, 0xC2CF_41DE_C53A_FD9A],
    },
    Row {
        form: (2, false, 0x10_0000),
        before: [0xA0C0_B3F9_9EBC_F365, 0xFE6, 0x10_0FFC, 0x213],
        after: [0xA0C0_B3F9_9EBC_F365, 0xFE8, 0x10_0FFE, 0x216],
        memory: [0x9F3_64FB_139E_4617, 0xF809_EF9B_86B6_23D3],
    },
    Row {
        form: (2, true, 0x0),
        before: [
            0x108E_0B8A_B05D_2C71,
            0x432A_AA69_0010_1009,
            0xC0B1_457D_0010_0FE9,
            0x2C3,
        ],
        after: [0x108E_0B8A_B05D_2C71, 0x10_100B, 0x10_0FEB, 0x246],
        memory: [0xC53A_FD9A_2D70_2672, 0x3B7E_8BFA_C3CF_41DE],
    },
    Row {
        form: (2, false, 0xFFFF_FFFF_FFF0_0000),
        before: [0xF26_5892_D429_D26B, 0x20_0FE8, 0x10_1008, 0xE97],
        after: [0xF26_5892_D429_D26B, 0x20_0FE6, 0x10_1006, 0x646],
        memory: [0x3AFD_9A2D_F809_EF9B, 0x7770_EDC2_CF41_DEC5],
    },
    Row {
        form: (2, true, 0x10_0000),
        before: [
            0xB30A_A299_35C2_6453,
            0x130C_945B_0000_0FE8,
            0xDE2_FBB3_0010_1008,
            0xE07,
        ],
        after: [0xB30A_A299_35C2_6453, 0xFE6, 0x10_1006, 0x646],
        memory: [0x3AFD_9A2D_F809_EF9B, 0x7770_EDC2_CF41_DEC5],
    },
    Row {
        form: (4, false, 0x10_0000),
        before: [0x24E6_29D8_96FB_1883, 0xFE8, 0x10_1008, 0x286],
        after: [0x24E6_29D8_96FB_1883, 0xFEC, 0x10_100C, 0x246],
        memory: [0x3AFD_9A2D_F809_EF9B, 0x7770_EDC2_CF41_DEC5],
    },
    Row {
        form: (4, true, 0xFFFF_FFFF_FFF0_0000),
        before: [
            0x28F3_5008_2A0B_DC33,
            0x8DB8_A74B_0020_0FE8,
            0x43E9_64C5_0010_1008,
            0xA52,
        ],
        after: [0x28F3_5008_2A0B_DC33, 0x20_0FEC, 0x10_100C, 0x246],
        memory: [0x3AFD_9A2D_F809_EF9B, 0x7770_EDC2_CF41_DEC5],
    },
    Row {
        form: (4, false, 0xFFFF_FFFF_FFF0_0000),
        before: [0x608E_DFDD_A646_248F, 0x20_100A, 0x10_0FF7, 0x646],
        after: [0x608E_DFDD_A646_248F, 0x20_1006, 0x10_0FF3, 0x606],
        memory: [0x9E46_1704_ACF4_3B7E, 0xB623_D309_F364_FB13],
    },
    Row {
        form: (4, true, 0x0),
        before: [
            0xB27B_8D6C_7D2C_1506,
            0xF52B_CCAD_0010_1008,
            0xF1CD_3035_0010_100D,
            0xE06,
        ],
        after: [0xB27B_8D6C_7D2C_1506, 0x10_1004, 0x10_1009, 0x613],
        memory: [0xC2CF_41DE_C53A_FD9A, 0xF782_719A_4977_70ED],
    },
    Row {
        form: (8, false, 0x0),
        before: [0xC01D_7780_9EF4_F1D4, 0x10_1003, 0x10_100D, 0x217],
        after: [0xC01D_7780_9EF4_F1D4, 0x10_100B, 0x10_1015, 0x292],
        memory: [0xC2CF_41DE_C53A_FD9A, 0xF782_719A_4977_70ED],
    },
    Row {
        form: (8, true, 0x10_0000),
        before: [
            0x285D_676D_7387_09C0,
            0x463C_77D3_0000_0FEF,
            0x6AF_9BFD_0010_0FEB,
            0xA17,
        ],
        after: [0x285D_676D_7387_09C0, 0xFF7, 0x10_0FF3, 0x206],
        memory: [0x41DE_C53A_FD9A_2D70, 0xACF4_3B7E_8BFA_C3CF],
    },
    Row {
        form: (8, false, 0x0),
        before: [0x49A3_4268_CECC_56EB, 0x10_0FE8, 0x10_1008, 0xEC3],
        after: [0x49A3_4268_CECC_56EB, 0x10_0FE0, 0x10_1000, 0x646],
        memory: [0x3AFD_9A2D_F809_EF9B, 0x7770_EDC2_CF41_DEC5],
    },
    Row {
        form: (8, true, 0x0),
        before: [
            0xF40B_F4BE_400D_570E,
            0x979_4E21_0010_0FE8,
            0x7F84_34BD_0010_1008,
            0x686,
        ],
        after: [0xF40B_F4BE_400D_570E, 0x10_0FE0, 0x10_1000, 0x646],
        memory: [0x3AFD_9A2D_F809_EF9B, 0x7770_EDC2_CF41_DEC5],
    },
];

pub(super) const STOS: [Row; 17] = [
    Row {
        form: (1, false, 0x0),
        before: [0xC008_5237_F307_D9D6, 0x10_1006, 0x10_0FF9, 0x2D7],
        after: [0xC008_5237_F307_D9D6, 0x10_1006, 0x10_0FFA, 0x2D7],
        memory: [0xFB13_9ED6_1704_ACF4, 0x9B86_B623_D309_F364],
    },
    Row {
        form: (1, true, 0x0),
        before: [
            0x9148_33A9_EE28_3DC0,
            0xB35_1DBB_0010_0FEE,
            0x7B53_7941_0010_0FEA,
            0x2C7,
        ],
        after: [
            0x9148_33A9_EE28_3DC0,
            0xB35_1DBB_0010_0FEE,
            0x10_0FEB,
            0x2C7,
        ],
        memory: [0xDEC5_3AC0_9A2D_7026, 0xF43B_7E8B_FAC3_CF41],
    },
    Row {
        form: (1, false, 0x0),
        before: [0xFBB6_0192_CDB3_E9B2, 0x10_0FF9, 0x10_1009, 0xE92],
        after: [0xFBB6_0192_CDB3_E9B2, 0x10_0FF9, 0x10_1008, 0xE92],
        memory: [0xC53A_FDB2_2DF8_09EF, 0x4977_70ED_C2CF_41DE],
    },
    Row {
        form: (1, true, 0x0),
        before: [
            0xDF75_6F66_D48C_D75F,
            0x5299_F931_0010_1008,
            0x5062_A683_0010_100B,
            0x6C3,
        ],
        after: [
            0xDF75_6F66_D48C_D75F,
            0x5299_F931_0010_1008,
            0x10_100A,
            0x6C3,
        ],
        memory: [0x41DE_C55F_FD9A_2DF8, 0x719A_4977_70ED_C2CF],
    },
    Row {
        form: (2, false, 0x0),
        before: [0x7972_9EBC_8C3B_5373, 0x10_1004, 0x10_0FFF, 0x206],
        after: [0x7972_9EBC_8C3B_5373, 0x10_1004, 0x10_1001, 0x206],
        memory: [0xB623_5373_F364_FB13, 0xFD9A_2DF8_09EF_9B86],
    },
    Row {
        form: (2, true, 0x0),
        before: [
            0x41D6_5363_5FD8_A96C,
            0xFC1C_C33F_0010_100B,
            0xD8C3_F539_0010_0FE5,
            0xA17,
        ],
        after: [
            0x41D6_5363_5FD8_A96C,
            0xFC1C_C33F_0010_100B,
            0x10_0FE7,
            0xA17,
        ],
        memory: [0x2D70_A96C_0561_8FC8, 0xC3CF_41DE_C53A_FD9A],
    },
    Row {
        form: (2, false, 0x0),
        before: [0x5FA_A3DB_CAE8_E087, 0x10_0FE7, 0x10_100F, 0xED2],
        after: [0x5FA_A3DB_CAE8_E087, 0x10_0FE7, 0x10_100D, 0xED2],
        memory: [0x70ED_E087_41DE_C53A, 0xD8D9_F782_719A_4977],
    },
    Row {
        form: (2, true, 0x0),
        before: [
            0xC34_2C60_93A7_DD2A,
            0x70F2_9811_0010_1003,
            0x77F7_7921_0010_0FEA,
            0x686,
        ],
        after: [
            0xC34_2C60_93A7_DD2A,
            0x70F2_9811_0010_1003,
            0x10_0FE8,
            0x686,
        ],
        memory: [0xDEC5_DD2A_9A2D_7026, 0xF43B_7E8B_FAC3_CF41],
    },
    Row {
        form: (4, false, 0x0),
        before: [0xE722_FE32_0938_0BEC, 0x10_1009, 0x10_0FFC, 0xAD2],
        after: [0xE722_FE32_0938_0BEC, 0x10_1009, 0x10_1000, 0xAD2],
        memory: [0x938_0BEC_139E_4617, 0xF809_EF9B_86B6_23D3],
    },
    Row {
        form: (4, true, 0x0),
        before: [
            0x13F0_2843_9B74_FB9B,
            0x7757_94AD_0010_1006,
            0x79C3_9085_0010_0FFA,
            0x2D3,
        ],
        after: [
            0x13F0_2843_9B74_FB9B,
            0x7757_94AD_0010_1006,
            0x10_0FFE,
            0x2D3,
        ],
        memory: [0x9B74_FB9B_4617_04AC, 0xEF9B_86B6_23D3_09F3],
    },
    Row {
        form: (4, false, 0x0),
        before: [0xBCF9_4645_7E93_8B73, 0x10_0FED, 0x10_1008, 0x6C6],
        after: [0xBCF9_4645_7E93_8B73, 0x10_0FED, 0x10_1004, 0x6C6],
        memory: [0x7E93_8B73_F809_EF9B, 0x7770_EDC2_CF41_DEC5],
    },
    Row {
        form: (4, true, 0x0),
        before: [
            0xA784_2014_627A_2821,
            0x7952_F431_0010_0FF0,
            0x4CA9_7D99_0010_0FE7,
            0x687,
        ],
        after: [
            0xA784_2014_627A_2821,
            0x7952_F431_0010_0FF0,
            0x10_0FE3,
            0x687,
        ],
        memory: [0x627A_2821_2672_0561, 0x8BFA_C3CF_41DE_C53A],
    },
    Row {
        form: (8, false, 0x0),
        before: [0xDAE2_7A90_CF1E_D6ED, 0x10_0FEC, 0x10_100E, 0xA02],
        after: [0xDAE2_7A90_CF1E_D6ED, 0x10_0FEC, 0x10_1016, 0xA02],
        memory: [0xCF1E_D6ED_DEC5_3AFD, 0xD9F7_8271_DAE2_7A90],
    },
    Row {
        form: (8, true, 0x0),
        before: [
            0xBE4E_F125_52E0_451C,
            0x2DDB_4297_0010_1004,
            0x5224_9193_0010_0FFB,
            0x202,
        ],
        after: [
            0xBE4E_F125_52E0_451C,
            0x2DDB_4297_0010_1004,
            0x10_1003,
            0x202,
        ],
        memory: [0x52E0_451C_9E46_1704, 0x9EF_9B86_BE4E_F125],
    },
    Row {
        form: (8, false, 0x0),
        before: [0xED6D_C228_66D1_0998, 0x10_0FF4, 0x10_1003, 0xE52],
        after: [0xED6D_C228_66D1_0998, 0x10_0FF4, 0x10_0FFB, 0xE52],
        memory: [0x66D1_0998_B623_D309, 0x41DE_C53A_ED6D_C228],
    },
    Row {
        form: (8, true, 0x0),
        before: [
            0x1E82_DC77_0735_B35C,
            0x8C48_8F3B_0010_1004,
            0x8DDC_90A5_0010_0FF1,
            0xE83,
        ],
        after: [
            0x1E82_DC77_0735_B35C,
            0x8C48_8F3B_0010_1004,
            0x10_0FE9,
            0xE83,
        ],
        memory: [0x735_B35C_C3CF_41DE, 0xFB13_9E46_1E82_DC77],
    },
    Row {
        form: (1, true, 0x0),
        before: [
            0xBEAF_7E7F_7598_FAC4,
            0x2BB3_4920_CEFD_8085,
            0x75_FFFF_FFFF,
            0x202,
        ],
        after: [0xBEAF_7E7F_7598_FAC4, 0x2BB3_4920_CEFD_8085, 0x0, 0x202],
        memory: [0xC4_0000_0000, 0x0],
    },
];

pub(super) const LODS: [Row; 19] = [
    Row {
        form: (1, false, 0x10_0000),
        before: [0x4BBE_AA8E_AFAB_091E, 0xFFA, 0x10_0FFD, 0xA13],
        after: [0x4BBE_AA8E_AFAB_099E, 0xFFB, 0x10_0FFD, 0xA13],
        memory: [0xD309_F364_FB13_9E46, 0x2DF8_09EF_9B86_B623],
    },
    Row {
        form: (1, true, 0x10_0000),
        before: [
            0xB156_67E2_9CAE_941C,
            0x3CD9_4E35_0000_1001,
            0x3A65_F1A9_0010_1002,
            0xA86,
        ],
        after: [0xB156_67E2_9CAE_9423, 0x1002, 0x3A65_F1A9_0010_1002, 0xA86],
        memory: [0xEF9B_86B6_23D3_09F3, 0xDEC5_3AFD_9A2D_F809],
    },
    Row {
        form: (1, false, 0x0),
        before: [0xC879_C11E_292B_4EAE, 0x10_100B, 0x10_1008, 0x643],
        after: [0xC879_C11E_292B_4E3A, 0x10_100A, 0x10_1008, 0x643],
        memory: [0x3AFD_9A2D_F809_EF9B, 0x7770_EDC2_CF41_DEC5],
    },
    Row {
        form: (1, true, 0x0),
        before: [
            0x6BCA_AA6F_C5D1_289D,
            0x501B_0D8D_0010_0FF3,
            0x6AE7_D897_0010_0FFD,
            0x693,
        ],
        after: [
            0x6BCA_AA6F_C5D1_287E,
            0x10_0FF2,
            0x6AE7_D897_0010_0FFD,
            0x693,
        ],
        memory: [0xD309_F364_FB13_9E46, 0x2DF8_09EF_9B86_B623],
    },
    Row {
        form: (2, false, 0x0),
        before: [0x72F6_8CE6_B919_1753, 0x10_1002, 0x10_1008, 0x2C6],
        after: [0x72F6_8CE6_B919_86B6, 0x10_1004, 0x10_1008, 0x2C6],
        memory: [0x3AFD_9A2D_F809_EF9B, 0x7770_EDC2_CF41_DEC5],
    },
    Row {
        form: (2, true, 0xFFFF_FFFF_FFF0_0000),
        before: [
            0x1AA4_9A0B_95C0_5F76,
            0x7D82_C249_0020_0FE5,
            0x6018_55CD_0010_0FF5,
            0x297,
        ],
        after: [
            0x1AA4_9A0B_95C0_2672,
            0x20_0FE7,
            0x6018_55CD_0010_0FF5,
            0x297,
        ],
        memory: [0x1704_ACF4_3B7E_8BFA, 0xD309_F364_FB13_9E46],
    },
    Row {
        form: (2, false, 0x0),
        before: [0xD033_63B3_6023_A5C7, 0x10_0FEA, 0x10_0FF8, 0x647],
        after: [0xD033_63B3_6023_3AFD, 0x10_0FE8, 0x10_0FF8, 0x647],
        memory: [0x139E_4617_04AC_F43B, 0x86B6_23D3_09F3_64FB],
    },
    Row {
        form: (2, true, 0xFFFF_FFFF_FFF0_0000),
        before: [
            0xC820_DA07_EA4F_F093,
            0xDF11_2BB3_0020_0FE7,
            0xA159_A565_0010_0FE6,
            0x646,
        ],
        after: [
            0xC820_DA07_EA4F_2D70,
            0x20_0FE5,
            0xA159_A565_0010_0FE6,
            0x646,
        ],
        memory: [0x9A2D_7026_7205_618F, 0xFAC3_CF41_DEC5_3AFD],
    },
    Row {
        form: (4, false, 0x10_0000),
        before: [0x467F_916C_65BF_B4D6, 0xFE7, 0x10_1006, 0xA47],
        after: [0xFD9A_2D70, 0xFEB, 0x10_1006, 0xA47],
        memory: [0x9A2D_F809_EF9B_86B6, 0xEDC2_CF41_DEC5_3AFD],
    },
    Row {
        form: (4, true, 0x0),
        before: [
            0x9437_1483_0E4D_7900,
            0x73CB_A3F3_0010_1000,
            0x1BD0_8835_0010_0FE4,
            0xA17,
        ],
        after: [0x86B6_23D3, 0x10_1004, 0x1BD0_8835_0010_0FE4, 0xA17],
        memory: [0x7026_7205_618F_C870, 0xCF41_DEC5_3AFD_9A2D],
    },
    Row {
        form: (4, false, 0x10_0000),
        before: [0xCFA0_C596_5731_C75A, 0xFF5, 0x10_100F, 0x647],
        after: [0x1704_ACF4, 0xFF1, 0x10_100F, 0x647],
        memory: [0x70ED_C2CF_41DE_C53A, 0xD8D9_F782_719A_4977],
    },
    Row {
        form: (4, true, 0x0),
        before: [
            0x4F75_C951_CB6E_2B03,
            0xD938_5795_0010_0FF6,
            0xA899_627B_0010_1009,
            0x656,
        ],
        after: [0x4617_04AC, 0x10_0FF2, 0xA899_627B_0010_1009, 0x656],
        memory: [0xC53A_FD9A_2DF8_09EF, 0x4977_70ED_C2CF_41DE],
    },
    Row {
        form: (8, false, 0xFFFF_FFFF_FFF0_0000),
        before: [0x6503_A790_0A02_2BFE, 0x20_0FEB, 0x10_0FE9, 0xA16],
        after: [0x8BFA_C3CF_41DE_C53A, 0x20_0FF3, 0x10_0FE9, 0xA16],
        memory: [0xC53A_FD9A_2D70_2672, 0x3B7E_8BFA_C3CF_41DE],
    },
    Row {
        form: (8, true, 0x10_0000),
        before: [
            0x2DC6_2FC8_C856_0193,
            0xDED4_A951_0000_0FF5,
            0xDB6D_5403_0010_1000,
            0x203,
        ],
        after: [0xFB13_9E46_1704_ACF4, 0xFFD, 0xDB6D_5403_0010_1000, 0x203],
        memory: [0x86B6_23D3_09F3_64FB, 0x3AFD_9A2D_F809_EF9B],
    },
    Row {
        form: (8, false, 0xFFFF_FFFF_FFF0_0000),
        before: [0x7C76_E4BF_DC0E_7064, 0x20_1000, 0x10_100F, 0xE02],
        after: [0xF809_EF9B_86B6_23D3, 0x20_0FF8, 0x10_100F, 0xE02],
        memory: [0x70ED_C2CF_41DE_C53A, 0xD8D9_F782_719A_4977],
    },
    Row {
        form: (8, true, 0x0),
        before: [
            0x18F5_24EE_F87B_CA67,
            0xCA53_4433_0010_0FF9,
            0xD366_8E7B_0010_0FFD,
            0x686,
        ],
        after: [
            0xD309_F364_FB13_9E46,
            0x10_0FF1,
            0xD366_8E7B_0010_0FFD,
            0x686,
        ],
        memory: [0xD309_F364_FB13_9E46, 0x2DF8_09EF_9B86_B623],
    },
    Row {
        form: (4, true, 0x10_0FF0),
        before: [0x8FE0_CDA4_53E2_BDA7, 0x55_0000_0000, 0x10_0FE8, 0x602],
        after: [0x7E8B_FAC3, 0xFFFF_FFFC, 0x10_0FE8, 0x602],
        memory: [0x3AFD_9A2D_7026_7205, 0x7E8B_FAC3_CF41_DEC5],
    },
    Row {
        form: (2, false, 0x10_0FF0),
        before: [0x49D7_87EA_5666_F11C, 0x0, 0x10_0FE8, 0x602],
        after: [
            0x49D7_87EA_5666_FAC3,
            0xFFFF_FFFF_FFFF_FFFE,
            0x10_0FE8,
            0x602,
        ],
        memory: [0x3AFD_9A2D_7026_7205, 0x7E8B_FAC3_CF41_DEC5],
    },
    Row {
        form: (1, false, 0x10_0FF0),
        before: [
            0x8921_1217_32A9_FBFE,
            0xFFFF_FFFF_FFFF_FFFF,
            0x10_0FE8,
            0x202,
        ],
        after: [0x8921_1217_32A9_FBCF, 0x0, 0x10_0FE8, 0x202],
        memory: [0x3AFD_9A2D_7026_7205, 0x7E8B_FAC3_CF41_DEC5],
    },
];

pub(super) const SCAS: [Row; 16] = [
    Row {
        form: (1, false, 0x0),
        before: [0x4F41_DEC5_3AFD_9A2D, 0x10_0FFA, 0x10_1008, 0x283],
        after: [0x4F41_DEC5_3AFD_9A2D, 0x10_0FFA, 0x10_1009, 0x246],
        memory: [0x3AFD_9A2D_F809_EF9B, 0x7770_EDC2_CF41_DEC5],
    },
    Row {
        form: (1, true, 0x0),
        before: [
            0xE321_4444_D913_F27B,
            0x3CAC_2B5F_0010_0FE9,
            0xE326_44C9_0010_0FF4,
            0xAC2,
        ],
        after: [
            0xE321_4444_D913_F27B,
            0x3CAC_2B5F_0010_0FE9,
            0x10_0FF5,
            0x202,
        ],
        memory: [0x4AC_F43B_7E8B_FAC3, 0x9F3_64FB_139E_4617],
    },
    Row {
        form: (1, false, 0x0),
        before: [0x5325_71C5_08EE_917B, 0x10_0FF8, 0x10_0FE8, 0xE02],
        after: [0x5325_71C5_08EE_917B, 0x10_0FF8, 0x10_0FE7, 0x616],
        memory: [0x3AFD_9A2D_7026_7205, 0x7E8B_FAC3_CF41_DEC5],
    },
    Row {
        form: (1, true, 0x0),
        before: [
            0x4F41_DEC5_3AFD_9A2D,
            0xE9F_CE4F_0010_0FE8,
            0xC1C_A253_0010_1008,
            0x693,
        ],
        after: [
            0x4F41_DEC5_3AFD_9A2D,
            0xE9F_CE4F_0010_0FE8,
            0x10_1007,
            0x646,
        ],
        memory: [0x3AFD_9A2D_F809_EF9B, 0x7770_EDC2_CF41_DEC5],
    },
    Row {
        form: (2, false, 0x0),
        before: [0x4F41_DEC5_3AFD_9A2D, 0x10_0FE5, 0x10_1008, 0xA96],
        after: [0x4F41_DEC5_3AFD_9A2D, 0x10_0FE5, 0x10_100A, 0x246],
        memory: [0x3AFD_9A2D_F809_EF9B, 0x7770_EDC2_CF41_DEC5],
    },
    Row {
        form: (2, true, 0x0),
        before: [
            0x53_9736_3F19_46F1,
            0x6D90_E83D_0010_0FF7,
            0xD3AE_46ED_0010_0FE8,
            0xAD6,
        ],
        after: [0x53_9736_3F19_46F1, 0x6D90_E83D_0010_0FF7, 0x10_0FEA, 0xA93],
        memory: [0x3AFD_9A2D_7026_7205, 0x7E8B_FAC3_CF41_DEC5],
    },
    Row {
        form: (2, false, 0x0),
        before: [0x3FE1_52DB_BCEA_C6AB, 0x10_0FF7, 0x10_1009, 0x643],
        after: [0x3FE1_52DB_BCEA_C6AB, 0x10_0FF7, 0x10_1007, 0x687],
        memory: [0xC53A_FD9A_2DF8_09EF, 0x4977_70ED_C2CF_41DE],
    },
    Row {
        form: (2, true, 0x0),
        before: [
            0x4F41_DEC5_3AFD_9A2D,
            0xA64D_4E89_0010_0FF9,
            0xDB2B_5655_0010_1008,
            0xEC6,
        ],
        after: [
            0x4F41_DEC5_3AFD_9A2D,
            0xA64D_4E89_0010_0FF9,
            0x10_1006,
            0x646,
        ],
        memory: [0x3AFD_9A2D_F809_EF9B, 0x7770_EDC2_CF41_DEC5],
    },
    Row {
        form: (4, false, 0x0),
        before: [0x4F41_DEC5_3AFD_9A2D, 0x10_1007, 0x10_1008, 0x2D2],
        after: [0x4F41_DEC5_3AFD_9A2D, 0x10_1007, 0x10_100C, 0x246],
        memory: [0x3AFD_9A2D_F809_EF9B, 0x7770_EDC2_CF41_DEC5],
    },
    Row {
        form: (4, true, 0x0),
        before: [
            0xB41F_08CB_7B51_C4FC,
            0xB1A3_D875_0010_0FFC,
            0x1C32_2285_0010_0FF0,
            0xA16,
        ],
        after: [
            0xB41F_08CB_7B51_C4FC,
            0xB1A3_D875_0010_0FFC,
            0x10_0FF4,
            0x287,
        ],
        memory: [0x7E8B_FAC3_CF41_DEC5, 0x139E_4617_04AC_F43B],
    },
    Row {
        form: (4, false, 0x0),
        before: [0xFBB3_C04F_1000_5CC0, 0x10_100B, 0x10_1009, 0x682],
        after: [0xFBB3_C04F_1000_5CC0, 0x10_100B, 0x10_1005, 0x613],
        memory: [0xC53A_FD9A_2DF8_09EF, 0x4977_70ED_C2CF_41DE],
    },
    Row {
        form: (4, true, 0x0),
        before: [
            0x4F41_DEC5_3AFD_9A2D,
            0xEA94_1C71_0010_0FE5,
            0x6958_2849_0010_1008,
            0xE53,
        ],
        after: [
            0x4F41_DEC5_3AFD_9A2D,
            0xEA94_1C71_0010_0FE5,
            0x10_1004,
            0x646,
        ],
        memory: [0x3AFD_9A2D_F809_EF9B, 0x7770_EDC2_CF41_DEC5],
    },
    Row {
        form: (8, false, 0x0),
        before: [0xCF41_DEC5_3AFD_9A2D, 0x10_1008, 0x10_1008, 0xA12],
        after: [0xCF41_DEC5_3AFD_9A2D, 0x10_1008, 0x10_1010, 0x246],
        memory: [0x3AFD_9A2D_F809_EF9B, 0x7770_EDC2_CF41_DEC5],
    },
    Row {
        form: (8, true, 0x0),
        before: [
            0x6AE7_8506_0EF3_52D0,
            0xD48A_0075_0010_0FFF,
            0xC7C7_A935_0010_0FF7,
            0xA13,
        ],
        after: [
            0x6AE7_8506_0EF3_52D0,
            0xD48A_0075_0010_0FFF,
            0x10_0FFF,
            0x217,
        ],
        memory: [0x9E46_1704_ACF4_3B7E, 0xB623_D309_F364_FB13],
    },
    Row {
        form: (8, false, 0x0),
        before: [0xE452_2DA5_4813_3CE4, 0x10_0FF5, 0x10_0FFB, 0xE07],
        after: [0xE452_2DA5_4813_3CE4, 0x10_0FF5, 0x10_0FF3, 0x606],
        memory: [0xF364_FB13_9E46_1704, 0x9EF_9B86_B623_D309],
    },
    Row {
        form: (8, true, 0x0),
        before: [
            0xCF41_DEC5_3AFD_9A2D,
            0x272C_D6BB_0010_0FEE,
            0xDF2C_41D7_0010_1008,
            0x697,
        ],
        after: [
            0xCF41_DEC5_3AFD_9A2D,
            0x272C_D6BB_0010_0FEE,
            0x10_1000,
            0x646,
        ],
        memory: [0x3AFD_9A2D_F809_EF9B, 0x7770_EDC2_CF41_DEC5],
    },
];
