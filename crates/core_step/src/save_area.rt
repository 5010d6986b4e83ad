//! Which state components there are, and where they stand in a save area (SDM volume 1, 13.1 to 13.5).
use num_lanes::Components;

/// Where a component from 2 up stands in a save area.
#[derive(Clone, Copy)]
pub struct Area {
    pub offset: u32,
    pub size: u32,
}

/// The upper halves of YMM0 to YMM15.
pub(crate) const AVX_AREA: Area = Area {
    offset: 576,
    size: 16 * 16,
};

/// K0 to K7.
pub(crate) const OPMASK_AREA: Area = Area {
    offset: 1088,
    size: 8 * 8,
};

/// The upper halves of ZMM0 to ZMM15.
pub(crate) const ZMM_HI256_AREA: Area = Area {
    offset: 1152,
    size: 16 * 32,
};

/// ZMM16 to ZMM31.
pub(crate) const HI16_ZMM_AREA: Area = Area {
    offset: 1664,
    size: 16 * 64,
};

/// How many bytes a save area has.
pub(crate) const AREA_BYTES: u32 = HI16_ZMM_AREA.offset + HI16_ZMM_AREA.size;

/// XCR0, the state components that are enabled: all of them.
pub(crate) const XCR0: u8 = Components::X87.0
    | Components::SSE.0
    | Components::AVX.0
    | Components::OPMASK.0
    | Components::ZMM_HI256.0
    | Components::HI16_ZMM.0;
