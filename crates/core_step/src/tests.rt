mod identity;
mod processor;
mod vectors;

use crate::{Acted, Fault, FetchCache, Fetched, Flags, Gprs, Kept, Machine, Pages, Perms, VecFile};
use machine_state::{Kind, PAGE_SIZE};
use page_fixture::map_in_frame;
use processor::{Row, State};
use std::alloc::Global;
use std::process::Abort;
use std::test::Fail;

const CODE: u64 = 0x40_0000;

const DATA: u64 = 0x50_0000;

const PAGE: usize = PAGE_SIZE as usize;

// The registers at the start of each row.
const REGISTERS: [u64; 16] = [
    0x8877_6655_4433_2211,
    3,
    0x0123_4567_89AB_CDEF,
    0x50_0100,
    0x50_0800,
    0x50_0900,
    0x50_0180,
    0x20,
    0xFFFF_FFFF_FFFF_FFFF,
    0x1122_3344_5566_7788,
    0x1010_1010_1010_1010,
    0x2020_2020_2020_2020,
    0x3030_3030_3030_3030,
    0x4040_4040_4040_4040,
    0x5050_5050_5050_5050,
    0x6060_6060_6060_6060,
];

// The data page at the start of each row.
fn data() -> [u8; PAGE] {
    let mut page = [0; PAGE];
    for k in 0..PAGE {
        page[k] = ((k * 7 + 1) % 256) as u8;
    }
    page
}

// A machine with a page of code, which can be written too, and one of data, at the start of a row.
fn machine(rt: &impl Abort, alloc: Global, code: &[u8]) -> Result<Machine, Fail> {
    let mut pages = Pages::new(alloc, 8, 8)?;
    assert_eq!(rt; map_in_frame(&mut pages, CODE, Perms(7)), Ok(()));
    assert_eq!(rt; map_in_frame(&mut pages, DATA, Perms(3)), Ok(()));
    assert_eq!(rt; pages.write(CODE + 0x100, code), Ok(()));
    assert_eq!(rt; pages.write(DATA, &data()), Ok(()));
    let mut gprs = Gprs::new();
    for n in 0..16 {
        gprs.set(n as u8, REGISTERS[n]);
    }
    Ok(Machine {
        gprs,
        flags: Flags::from_word(1),
        rip: CODE + 0x100,
        vec: VecFile::new(),
        pages,
        fs: 0,
        gs: 0,
        steps: 0,
    })
}

fn step(rt: &impl Abort, machine: &mut Machine) -> Acted {
    assert!(rt; machine.steps < 100);
    match machine.fetch() {
        Fetched::Instr(d, len) => machine.perform(&d, len),
        Fetched::Trap(fault) => Acted::Trap(fault),
        Fetched::Need(slot) => Acted::Need(slot),
    }
}

fn put_bytes(rt: &impl Abort, page: &mut [u8; PAGE], addr: u64, bytes: &[u8]) {
    assert!(rt; addr >= DATA && addr < DATA + 0x1000);
    let at = (addr - DATA) as usize;
    assert!(rt; bytes.len() <= PAGE - at);
    page[at..at + bytes.len()].copy_from_slice(bytes);
}

// The machine with what is different at the start.
fn begin(rt: &impl Abort, m: &mut Machine, state: &State) {
    for (n, value) in state.0 {
        assert!(rt; *n < 16);
        m.gprs.set(*n, *value);
    }
    m.flags = Flags::from_word(state.1);
    for (addr, bytes) in state.2 {
        assert_eq!(rt; m.pages.write(*addr, bytes), Ok(()));
    }
}

// The same for the registers and the data page that are expected.
fn change(rt: &impl Abort, registers: &mut [u64; 16], page: &mut [u8; PAGE], state: &State) {
    for (n, value) in state.0 {
        assert!(rt; *n < 16);
        registers[*n as usize] = *value;
    }
    for (addr, bytes) in state.2 {
        put_bytes(rt, page, *addr, bytes);
    }
}

// All registers, the flags, the instruction pointer and the data page.
fn compare(rt: &impl Abort, m: &Machine, row: &Row) {
    let mut registers = REGISTERS;
    let mut page = data();
    change(rt, &mut registers, &mut page, &row.1);
    change(rt, &mut registers, &mut page, &row.2);
    for n in 0..16 {
        assert_eq!(rt;
            m.gprs.get(n as u8),
            registers[n],
            "register {n} at {:?}",
            row.0
        );
    }
    assert_eq!(rt; m.flags.word(), row.2.1, "flags at {:?}", row.0);
    assert_eq!(rt; m.rip, row.3, "at {:?}", row.0);
    let mut left = [0; PAGE];
    assert_eq!(rt; m.pages.read(DATA, &mut left, Kind::Read), Ok(()));
    assert!(rt; left == page, "memory at {:?}", row.0);
}

fn check_row(rt: &impl Abort, alloc: Global, row: &Row) -> Result<(), Fail> {
    let mut m = machine(rt, alloc, row.0)?;
    begin(rt, &mut m, &row.1);
    assert_eq!(rt; step(rt, &mut m), Acted::Done, "at {:?}", row.0);
    compare(rt, &m, row);
    Ok(())
}

#[test]
fn moves_are_those_of_a_processor(rt: HostRuntime) -> Result<(), Fail> {
    for row in processor::move_rows() {
        check_row(&rt, rt.alloc(), row)?;
    }
    Ok(())
}

#[test]
fn conversions_are_those_of_a_processor(rt: HostRuntime) -> Result<(), Fail> {
    for row in processor::conversion_rows() {
        check_row(&rt, rt.alloc(), row)?;
    }
    Ok(())
}

#[test]
fn the_stack_is_that_of_a_processor(rt: HostRuntime) -> Result<(), Fail> {
    for row in processor::stack_rows() {
        check_row(&rt, rt.alloc(), row)?;
    }
    Ok(())
}

#[test]
fn jumps_are_those_of_a_processor(rt: HostRuntime) -> Result<(), Fail> {
    for row in processor::jump_rows() {
        check_row(&rt, rt.alloc(), row)?;
    }
    Ok(())
}

#[test]
fn flags_are_those_of_a_processor(rt: HostRuntime) -> Result<(), Fail> {
    for row in processor::flag_rows() {
        check_row(&rt, rt.alloc(), row)?;
    }
    Ok(())
}

#[test]
fn sums_are_those_of_a_processor(rt: HostRuntime) -> Result<(), Fail> {
    for row in processor::sum_rows() {
        check_row(&rt, rt.alloc(), row)?;
    }
    Ok(())
}

#[test]
fn bits_are_those_of_a_processor(rt: HostRuntime) -> Result<(), Fail> {
    for row in processor::bit_rows() {
        check_row(&rt, rt.alloc(), row)?;
    }
    Ok(())
}

#[test]
fn strings_are_those_of_a_processor(rt: HostRuntime) -> Result<(), Fail> {
    for (steps, row) in processor::string_rows() {
        let mut m = machine(&rt, rt.alloc(), row.0)?;
        begin(&rt, &mut m, &row.1);
        for _ in 0..*steps {
            assert_eq!(rt; step(&rt, &mut m), Acted::Done, "at {:?}", row.0);
        }
        compare(&rt, &m, row);
        assert_eq!(rt; m.steps, *steps, "at {:?}", row.0);
    }
    Ok(())
}

#[test]
fn pairs_are_those_of_a_processor(rt: HostRuntime) -> Result<(), Fail> {
    for row in processor::pair_rows() {
        check_row(&rt, rt.alloc(), row)?;
    }
    Ok(())
}

#[test]
fn operations_of_vex_are_those_of_a_processor(rt: HostRuntime) -> Result<(), Fail> {
    for row in processor::vex_rows() {
        check_row(&rt, rt.alloc(), row)?;
    }
    Ok(())
}

#[test]
fn moves_of_mxcsr_are_those_of_a_processor(rt: HostRuntime) -> Result<(), Fail> {
    for (before, row, after) in processor::mxcsr_rows() {
        let mut m = machine(&rt, rt.alloc(), row.0)?;
        begin(&rt, &mut m, &row.1);
        assert!(rt; *before < 0x1_0000);
        m.vec.set_mxcsr(*before);
        assert_eq!(rt; step(&rt, &mut m), Acted::Done, "at {:?}", row.0);
        compare(&rt, &m, row);
        assert_eq!(rt; m.vec.mxcsr(), *after, "MXCSR at {:?}", row.0);
    }
    Ok(())
}

// LDMXCSR [rbx] and STMXCSR [rbx + 4] of both classes, and with a W that doesn't count.
#[rattlefmt::skip]
static CONTROL: [(&[u8], &[u8]); 4] = [
    (&[0x0F, 0xAE, 0x13], &[0x0F, 0xAE, 0x5B, 4]),
    (&[0x48, 0x0F, 0xAE, 0x13], &[0x48, 0x0F, 0xAE, 0x5B, 4]),
    (&[0xC5, 0xF8, 0xAE, 0x13], &[0xC5, 0xF8, 0xAE, 0x5B, 4]),
    (&[0xC4, 0xE1, 0xF8, 0xAE, 0x13], &[0xC4, 0xE1, 0xF8, 0xAE, 0x5B, 4]),
];

fn control_codes() -> &'static [(&'static [u8], &'static [u8])] {
    &CONTROL
}

// A machine at LDMXCSR with this number at rbx.
fn before_control(
    rt: &impl Abort,
    alloc: Global,
    code: &[u8],
    number: u32,
) -> Result<Machine, Fail> {
    let mut m = machine(rt, alloc, code)?;
    assert_eq!(rt; m.pages.write(DATA + 0x100, &number.to_le_bytes()), Ok(()));
    Ok(m)
}

// Sixteen bits are loaded, and 32 stored.
#[test]
fn mxcsr_is_loaded_and_stored(rt: HostRuntime) -> Result<(), Fail> {
    for (load, store) in control_codes() {
        for number in [0xFFFF, 0x8001, 0x1F80, 0] {
            let mut m = before_control(&rt, rt.alloc(), load, number)?;
            assert_eq!(rt; m.vec.mxcsr(), 0x1F80);
            assert_eq!(rt; step(&rt, &mut m), Acted::Done, "at {load:?}");
            assert_eq!(rt; m.vec.mxcsr(), number, "at {load:?}");
            m.rip = CODE + 0x200;
            assert_eq!(rt; m.pages.write(CODE + 0x200, store), Ok(()));
            assert_eq!(rt; step(&rt, &mut m), Acted::Done, "at {store:?}");
            let mut loaded = [0; 4];
            let mut stored = [0; 4];
            let mut behind = [0; 4];
            assert_eq!(rt; m.pages.read(DATA + 0x100, &mut loaded, Kind::Read), Ok(()));
            assert_eq!(rt; m.pages.read(DATA + 0x104, &mut stored, Kind::Read), Ok(()));
            assert_eq!(rt; m.pages.read(DATA + 0x108, &mut behind, Kind::Read), Ok(()));
            assert_eq!(rt; loaded, number.to_le_bytes());
            assert_eq!(rt; stored, number.to_le_bytes(), "at {store:?}");
            assert_eq!(rt; behind, [0x39, 0x40, 0x47, 0x4E], "at {store:?}");
            assert_eq!(rt; m.flags.word(), 0x203);
        }
    }
    Ok(())
}

// A bit from 16 up is reserved.
#[test]
fn reserved_bits_of_mxcsr_are_a_fault(rt: HostRuntime) -> Result<(), Fail> {
    for (load, _) in control_codes() {
        for number in [0x1_0000, 0x8000_1F80, 0xFFFF_FFFF] {
            let mut m = before_control(&rt, rt.alloc(), load, number)?;
            assert_eq!(rt;
                step(&rt, &mut m),
                Acted::Trap(Fault::General),
                "at {load:?}"
            );
            assert_eq!(rt; m.vec.mxcsr(), 0x1F80);
            assert_eq!(rt; m.rip, CODE + 0x100);
            assert_eq!(rt; m.steps, 0);
        }
    }
    Ok(())
}

fn page_fault(addr: u64, write: bool, fetch: bool, mapped: bool) -> Fault {
    Fault::Page {
        addr,
        write,
        fetch,
        mapped,
    }
}

// Each row has the code, rsp and the fault. Nothing else changes.
#[test]
#[rattlefmt::skip]
fn faults_change_nothing(rt: HostRuntime) -> Result<(), Fail> {
    let rows: [(&[u8], u64, Fault); 14] = [
        // mov [0x600000], rax; mov [0x500ff9], rax; mov rax, [0x600000]
        (&[0x48, 0x89, 0x04, 0x25, 0, 0, 0x60, 0], 0x50_0800, page_fault(0x60_0000, true, false, false)),
        (&[0x48, 0x89, 0x04, 0x25, 0xF9, 0x0F, 0x50, 0], 0x50_0800, page_fault(0x50_1000, true, false, false)),
        (&[0x48, 0x8B, 0x04, 0x25, 0, 0, 0x60, 0], 0x50_0800, page_fault(0x60_0000, false, false, false)),
        // push rax, pop rax, call: on pages that aren't mapped, and at an address that isn't canonical
        (&[0x50], 0x50_0000, page_fault(0x4F_FFF8, true, false, false)),
        (&[0x58], 0x50_0FF9, page_fault(0x50_1000, false, false, false)),
        (&[0xE8, 0, 0, 0, 0], 0, page_fault(0xFFFF_FFFF_FFFF_FFF8, true, false, false)),
        (&[0x58], 0x8000_0000_0000, Fault::General),
        // push [0x600000]: what is pushed is read first
        (&[0xFF, 0x34, 0x25, 0, 0, 0x60, 0], 0x60_1000, page_fault(0x60_0000, false, false, false)),
        // hlt; addps xmm0, xmm1; lock mov [rbx], rax; lea eax, eax; C6 /1
        (&[0xF4], 0x50_0800, Fault::General),
        (&[0x0F, 0x58, 0xC1], 0x50_0800, Fault::Undefined),
        (&[0xF0, 0x48, 0x89, 0x03], 0x50_0800, Fault::Undefined),
        (&[0x8D, 0xC0], 0x50_0800, Fault::Undefined),
        (&[0xC6, 0x0B, 0x05], 0x50_0800, Fault::Undefined),
        // fifteen prefixes
        (&[0x66; 15], 0x50_0800, Fault::General),
    ];
    for (code, rsp, fault) in rows {
        let mut m = machine(&rt, rt.alloc(), code)?;
        m.gprs.set(4, rsp);
        assert_eq!(rt; step(&rt, &mut m), Acted::Trap(fault), "at {code:?}");
        assert_eq!(rt; m.rip, CODE + 0x100);
        assert_eq!(rt; m.gprs.get(4), rsp);
        assert_eq!(rt; m.steps, 0);
    }
    Ok(())
}

// Each row has the code, rbx, rsi, rdi and the fault. Nothing changes, the count neither.
#[test]
#[rattlefmt::skip]
fn faults_of_strings_and_pairs_change_nothing(rt: HostRuntime) -> Result<(), Fail> {
    let rows: [(&[u8], [u64; 3], Fault); 11] = [
        // rep movsb, movsd: what is moved is read first
        (&[0xF3, 0xA4], [0, 0x60_0000, 0x60_1000], page_fault(0x60_0000, false, false, false)),
        (&[0xF3, 0xA4], [0, 0x50_0000, 0x60_1000], page_fault(0x60_1000, true, false, false)),
        (&[0xA5], [0, 0x50_0FFE, 0x50_0000], page_fault(0x50_1000, false, false, false)),
        // cmpsb, stosq, lodsb, scasb
        (&[0xA6], [0, 0x50_0000, 0x60_0000], page_fault(0x60_0000, false, false, false)),
        (&[0x48, 0xAB], [0, 0, 0x50_0FF9], page_fault(0x50_1000, true, false, false)),
        (&[0xAC], [0, 0x8000_0000_0000, 0], Fault::General),
        (&[0xF2, 0xAE], [0, 0, 0x60_0000], page_fault(0x60_0000, false, false, false)),
        // cmpxchg16b [rbx], cmpxchg8b [rbx]: a place that isn't a multiple of 16 comes before all else
        (&[0x48, 0x0F, 0xC7, 0x0B], [0x50_0108, 0, 0], Fault::General),
        (&[0x48, 0x0F, 0xC7, 0x0B], [0x60_0001, 0, 0], Fault::General),
        (&[0x48, 0x0F, 0xC7, 0x0B], [0x60_0010, 0, 0], page_fault(0x60_0010, true, false, false)),
        (&[0x0F, 0xC7, 0x0B], [0x50_0FFC, 0, 0], page_fault(0x50_1000, true, false, false)),
    ];
    for (code, registers, fault) in rows {
        let mut m = machine(&rt, rt.alloc(), code)?;
        m.gprs.set(3, registers[0]);
        m.gprs.set(6, registers[1]);
        m.gprs.set(7, registers[2]);
        assert_eq!(rt; step(&rt, &mut m), Acted::Trap(fault), "at {code:?}");
        assert_eq!(rt; m.rip, CODE + 0x100);
        assert_eq!(rt; m.gprs.get(1), 3);
        assert_eq!(rt; [m.gprs.get(3), m.gprs.get(6), m.gprs.get(7)], registers);
        assert_eq!(rt; m.steps, 0);
    }
    Ok(())
}

// rep movsb of three bytes, of which the second has no place: the first stays moved.
#[test]
fn an_iteration_that_faults_leaves_those_before(rt: HostRuntime) -> Result<(), Fail> {
    let mut m = machine(&rt, rt.alloc(), &[0xF3, 0xA4])?;
    m.gprs.set(7, 0x50_0FFF);
    assert_eq!(rt; step(&rt, &mut m), Acted::Done);
    let fault = page_fault(0x50_1000, true, false, false);
    assert_eq!(rt; step(&rt, &mut m), Acted::Trap(fault));
    assert_eq!(rt; m.rip, CODE + 0x100);
    assert_eq!(rt; m.steps, 1);
    assert_eq!(rt;
        [m.gprs.get(1), m.gprs.get(6), m.gprs.get(7)],
        [2, 0x50_0181, 0x50_1000]
    );
    let mut left = [0];
    assert_eq!(rt; m.pages.read(0x50_0FFF, &mut left, Kind::Read), Ok(()));
    assert_eq!(rt; left, [0x81]);
    Ok(())
}

// INT3 leaves the instruction pointer behind itself, and SYSCALL leaves the next address in rcx and the flags in r11.
#[test]
fn a_breakpoint_and_a_call_move_on(rt: HostRuntime) -> Result<(), Fail> {
    let mut m = machine(&rt, rt.alloc(), &[0xCC, 0x0F, 0x05])?;
    assert_eq!(rt; step(&rt, &mut m), Acted::Trap(Fault::Breakpoint));
    assert_eq!(rt; m.rip, CODE + 0x101);
    assert_eq!(rt; step(&rt, &mut m), Acted::Call);
    assert_eq!(rt; m.rip, CODE + 0x103);
    assert_eq!(rt; m.gprs.get(1), CODE + 0x103);
    assert_eq!(rt; m.gprs.get(11), 0x203);
    assert_eq!(rt; m.steps, 0);
    Ok(())
}

// mov ecx, 3; call 0x400113; jmp 0x400120; (0x400113:) mov edx, [rip + ..]; loop back to it; ret
#[test]
fn a_loop_is_called_and_returns(rt: HostRuntime) -> Result<(), Fail> {
    let code = [
        0xB9, 3, 0, 0, 0, 0xE8, 2, 0, 0, 0, 0xEB, 5, 0x8B, 0x13, 0xE2, 0xFC, 0xC3, 0xF4,
    ];
    let mut m = machine(&rt, rt.alloc(), &code)?;
    for _ in 0..10 {
        assert_eq!(rt; step(&rt, &mut m), Acted::Done);
    }
    assert_eq!(rt; m.rip, CODE + 0x111);
    assert_eq!(rt; m.gprs.get(1), 0);
    assert_eq!(rt; m.gprs.get(2), 0x160F_0801);
    assert_eq!(rt; m.gprs.get(4), 0x50_0800);
    assert_eq!(rt; m.steps, 10);
    assert_eq!(rt; step(&rt, &mut m), Acted::Trap(Fault::General));
    Ok(())
}

// mov al, n, where n is written anew before each step, by a cache of fetches
#[test]
fn changed_code_is_fetched_anew(rt: HostRuntime) -> Result<(), Fail> {
    let mut m = machine(&rt, rt.alloc(), &[0xB0, 0])?;
    let mut cache = FetchCache::new(rt.alloc())?;
    for number in [5, 6, 6, 7] {
        m.rip = CODE + 0x100;
        assert_eq!(rt; m.pages.write(CODE + 0x101, &[number]), Ok(()));
        assert!(rt; m.steps < 100);
        match m.fetch_by(&mut cache) {
            Kept::Instr(p) => assert_eq!(rt; m.perform_prepared(p), Acted::Done),
            _ => panic!(rt; "no instruction"),
        }
        assert_eq!(rt; m.gprs.get(0) % 0x100, u64::from(number));
    }
    Ok(())
}

// Each row has the instruction pointer, the bytes there and the fault of their fetch.
#[test]
fn a_fetch_faults_at_the_first_byte_that_is_not_allowed(rt: HostRuntime) -> Result<(), Fail> {
    let rows: [(u64, &[u8], Fault); 6] = [
        (
            0x40_0FFF,
            &[0xB8],
            page_fault(0x40_1000, false, true, false),
        ),
        (
            0x40_0FFD,
            &[0x66, 0x66, 0x66],
            page_fault(0x40_1000, false, true, false),
        ),
        (0x40_0FFE, &[0x0F, 0x58], Fault::Undefined),
        (0x50_0000, &[0x90], page_fault(0x50_0000, false, true, true)),
        (0x8000_0000_0000, &[], Fault::General),
        (
            0xFFFF_8000_0000_0000,
            &[],
            page_fault(0xFFFF_8000_0000_0000, false, true, false),
        ),
    ];
    for (rip, code, fault) in rows {
        let mut m = machine(&rt, rt.alloc(), &[])?;
        if !code.is_empty() {
            assert_eq!(rt; m.pages.write(rip, code), Ok(()));
        }
        m.rip = rip;
        assert_eq!(rt; step(&rt, &mut m), Acted::Trap(fault), "at {rip:x}");
        assert_eq!(rt; m.rip, rip);
    }
    Ok(())
}

// Each row has the code, the bases of FS and GS, and what comes into eax where rsp is 16: mov eax, [rsp + 8] and others with
// prefixes 64, 65 and both; with 67 the sum is cut before the base is added, and lea adds none.
#[test]
#[rattlefmt::skip]
fn the_last_segment_prefix_gives_the_base(rt: HostRuntime) -> Result<(), Fail> {
    let rows: [(&[u8], u64, u64, u64); 7] = [
        (&[0x64, 0x8B, 0x44, 0x24, 8], 0x50_00E8, 0, 0x160F_0801),
        (&[0x64, 0x65, 0x8B, 0x44, 0x24, 8], 0, 0x50_00F8, 0x867F_7871),
        (&[0x65, 0x64, 0x2E, 0x8B, 0x44, 0x24, 8], 0x50_00E8, 0, 0x160F_0801),
        (&[0x64, 0x8B, 0x84, 0x24, 0, 1, 0x50, 0], 0xFFFF_FFFF_FFFF_FFF0, 0, 0x160F_0801),
        (&[0x65, 0x67, 0x8B, 0x44, 0x24, 0xEF], 0, 0xFFFF_FFFF_0050_0101, 0x160F_0801),
        (&[0x64, 0x8D, 0x44, 0x24, 8], 0x7000, 0, 0x18),
        // rorx eax, gs:[rsp + 8], 0
        (&[0x65, 0xC4, 0xE3, 0x7B, 0xF0, 0x44, 0x24, 8, 0], 0, 0x50_00F8, 0x867F_7871),
    ];
    for (code, fs, gs, eax) in rows {
        let mut m = machine(&rt, rt.alloc(), code)?;
        m.gprs.set(4, 0x10);
        m.fs = fs;
        m.gs = gs;
        assert_eq!(rt; step(&rt, &mut m), Acted::Done, "at {code:?}");
        assert_eq!(rt; m.gprs.get(0), eax, "at {code:?}");
    }
    Ok(())
}
