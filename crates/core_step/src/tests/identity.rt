//! CPUID and XGETBV: the numbers that each leaf tells, and what both do to the registers and the flags.
use super::*;

/// A leaf and a subleaf, and what goes to eax, ebx, ecx and edx.
type Leaf = (u32, u32, [u32; 4]);

/// "Xemu", the first letter in the lowest byte.
const NAME: u32 = 0x756D_6558;

static LEAVES: [Leaf; 28] = [
    // The last leaf and the name, whatever the subleaf.
    (0, 0, [0xD, NAME, NAME, NAME]),
    (0, 7, [0xD, NAME, NAME, NAME]),
    // Features, whatever the subleaf.
    (1, 0, [0, 0, 0x1CC8_2201, 0x0600_8111]),
    (1, 0xFFFF_FFFF, [0, 0, 0x1CC8_2201, 0x0600_8111]),
    // No leaf between 1 and 7, nor between 7 and DH, nor behind that.
    (2, 0, [0; 4]),
    (4, 0, [0; 4]),
    (6, 0, [0; 4]),
    (7, 0, [0, 0xD02B_2328, 0x5842, 0]),
    (7, 1, [0; 4]),
    (7, 2, [0; 4]),
    (0xB, 0, [0; 4]),
    (0xC, 0, [0; 4]),
    // XCR0 and the sizes of save areas, what XSAVE's kin there is, and the components.
    (0xD, 0, [0xE7, 2688, 2688, 0]),
    (0xD, 1, [1, 0, 0, 0]),
    (0xD, 2, [256, 576, 0, 0]),
    (0xD, 3, [0; 4]),
    (0xD, 4, [0; 4]),
    (0xD, 5, [64, 1088, 0, 0]),
    (0xD, 6, [512, 1152, 0, 0]),
    (0xD, 7, [1024, 1664, 0, 0]),
    (0xD, 8, [0; 4]),
    (0xD, 9, [0; 4]),
    (0xE, 0, [0; 4]),
    (0x4000_0000, 0, [0; 4]),
    (0x8000_0000, 3, [0x8000_0001, 0, 0, 0]),
    (0x8000_0001, 3, [0, 0, 0x21, 0x2010_0800]),
    (0x8000_0002, 0, [0; 4]),
    (0xFFFF_FFFF, 0, [0; 4]),
];

fn leaves() -> &'static [Leaf] {
    &LEAVES
}

// Whether the sixteen registers are those at the start of a row, but for rax, rcx, rdx and rbx.
fn are_others_kept(m: &Machine) -> bool {
    for n in 4..16 {
        if m.gprs.get(n as u8) != REGISTERS[n] {
            return false;
        }
    }
    true
}

// CPUID, with bits above the 32 that count in rax and rcx.
#[test]
fn each_leaf_tells_its_four_numbers(rt: HostRuntime) -> Result<(), Fail> {
    let mut m = machine(&rt, rt.alloc(), &[0x0F, 0xA2])?;
    let flags = m.flags;
    for (leaf, subleaf, [eax, ebx, ecx, edx]) in leaves() {
        m.gprs.set(0, 0x5555_5555_0000_0000 | u64::from(*leaf));
        m.gprs.set(1, 0xAAAA_AAAA_0000_0000 | u64::from(*subleaf));
        m.gprs.set(2, u64::MAX);
        m.gprs.set(3, u64::MAX);
        m.rip = CODE + 0x100;
        m.steps = 0;
        assert_eq!(rt; step(&rt, &mut m), Acted::Done);
        let told = [m.gprs.get(0), m.gprs.get(3), m.gprs.get(1), m.gprs.get(2)];
        let want = [
            u64::from(*eax),
            u64::from(*ebx),
            u64::from(*ecx),
            u64::from(*edx),
        ];
        assert_eq!(rt; told, want, "at {leaf}, {subleaf}");
        assert!(rt; are_others_kept(&m));
        assert!(rt; m.flags == flags);
        assert_eq!(rt; m.rip, CODE + 0x102);
        assert_eq!(rt; m.steps, 1);
    }
    Ok(())
}

// XGETBV has XCR0 alone, whose number is 0 in ecx.
#[test]
fn the_enabled_components_are_told(rt: HostRuntime) -> Result<(), Fail> {
    let mut m = machine(&rt, rt.alloc(), &[0x0F, 0x01, 0xD0])?;
    let flags = m.flags;
    m.gprs.set(1, 0xAAAA_AAAA_0000_0000);
    assert_eq!(rt; step(&rt, &mut m), Acted::Done);
    assert_eq!(rt; (m.gprs.get(0), m.gprs.get(2)), (0xE7, 0));
    assert_eq!(rt;
        (m.gprs.get(1), m.gprs.get(3)),
        (0xAAAA_AAAA_0000_0000, REGISTERS[3])
    );
    assert!(rt; are_others_kept(&m));
    assert!(rt; m.flags == flags);
    assert_eq!(rt; (m.rip, m.steps), (CODE + 0x103, 1));
    Ok(())
}

// Another number in ecx is a fault, which changes nothing.
#[test]
fn another_control_register_is_a_fault(rt: HostRuntime) -> Result<(), Fail> {
    for number in [1, 2, 0xFFFF_FFFF] {
        let mut m = machine(&rt, rt.alloc(), &[0x0F, 0x01, 0xD0])?;
        m.gprs.set(1, number);
        assert_eq!(rt; step(&rt, &mut m), Acted::Trap(Fault::General));
        assert_eq!(rt;
            (m.gprs.get(0), m.gprs.get(2)),
            (REGISTERS[0], REGISTERS[2])
        );
        assert_eq!(rt; (m.rip, m.steps), (CODE + 0x100, 0));
    }
    Ok(())
}
