//! What the contracts leave open: that memory is found, and that the definitions give what the sample programs should do.
ghost use Rattle.std.specs.Prelude.{◌≡◌, ◌≤◌, IfOk, length};
ghost use Rattle.host_edge.specs.NamedFiles.{named};

use super::*;
use gpr_flags::{RAX, RDX};
use host_edge::{HostCall, MemHost, MemSink, MemSource};
use std::alloc::{AllocError, Global};
use std::process::Abort;
use std::test::Fail;

mod files;

/// A header, eight instructions from byte 120 on, and `hello` with a line feed.
const HELLO: [u8; 159] = [
    0x7F, 0x45, 0x4C, 0x46, 2, 1, 1, 0, 0, 0, 0, 0, 0, 0, 0, 0, 2, 0, 62, 0, 1, 0, 0, 0, 120, 0,
    0x40, 0, 0, 0, 0, 0, 64, 0, 0, 0, 0, 0, 0, 0, 0, 0, 0, 0, 0, 0, 0, 0, 0, 0, 0, 0, 64, 0, 56, 0,
    1, 0, 0, 0, 0, 0, 0, 0, 1, 0, 0, 0, 5, 0, 0, 0, 0, 0, 0, 0, 0, 0, 0, 0, 0, 0, 0x40, 0, 0, 0, 0,
    0, 0, 0, 0x40, 0, 0, 0, 0, 0, 159, 0, 0, 0, 0, 0, 0, 0, 159, 0, 0, 0, 0, 0, 0, 0, 0, 0x10, 0,
    0, 0, 0, 0, 0, 0xB8, 1, 0, 0, 0, 0xBF, 1, 0, 0, 0, 0x48, 0x8D, 0x35, 16, 0, 0, 0, 0xBA, 6, 0,
    0, 0, 0x0F, 0x05, 0xB8, 60, 0, 0, 0, 0x31, 0xFF, 0x0F, 0x05, 104, 101, 108, 108, 111, 10,
];

/// What a command left.
#[derive(Drop)]
struct Left {
    ended: Ended,
    out: MemSink,
    err: MemSink,
}

fn file(alloc: Global, path: &str, bytes: &[u8]) -> Result<(String, Vec<u8>), AllocError>
    ensures { IfOk result (λ file. named file ≡ record { path = path.now; bytes = bytes.now }) }
{
    Ok((
        String::from_str(alloc, path)?,
        Vec::from_slice(alloc, bytes)?,
    ))
}

/// The room of a sink, and its calls that fail with the bytes that each puts before.
#[derive(Clone, Copy)]
struct Room<'a> {
    bytes: usize,
    fail: &'a [(u64, usize)],
}

const WIDE: Room<'static> = Room {
    bytes: 100,
    fail: &[],
};

/// The words that say where pages lie: each in a frame of its own, and in eight frames and a swap.
const FRAMES: [&[&str]; 2] = [
    &["--pages", "512"],
    &["--pages", "512", "--resident", "8", "--swap", "s"],
];

/// Some words and these texts behind them.
fn with_texts(
    alloc: Global,
    words: Vec<String>,
    texts: &[&str],
) -> Result<Vec<String>, AllocError> {
    let mut words = words;
    for text in texts {
        words.push(String::from_str(alloc, text)?)?;
    }
    Ok(words)
}

/// The words of three parts of a command line.
fn line(
    alloc: Global,
    first: &[&str],
    second: &[&str],
    third: &[&str],
) -> Result<Vec<String>, AllocError> {
    let words = with_texts(alloc, Vec::new(alloc), first)?;
    let words = with_texts(alloc, words, second)?;
    with_texts(alloc, words, third)
}

/// A word of so many bytes.
fn long_word(alloc: Global, count: usize) -> Result<String, AllocError> {
    let mut word = String::new(alloc);
    for _ in 0..count {
        word.push('x')?;
    }
    Ok(word)
}

/// Runs a command on a host with one file, `hello`, and sinks with these rooms.
fn run_words(
    alloc: Global,
    words: &[String],
    bytes: &[u8],
    out: Room,
    err: Room,
) -> Result<Left, AllocError> {
    let files = vec![in alloc; file(alloc, "hello", bytes)?]?;
    let mut host = MemHost::new(alloc, files, bytes.len() + 5, 512, &[])?;
    let mut input = MemSource::new(alloc, b"unread", 3, &[])?;
    let mut out = MemSink::new(alloc, out.bytes, out.fail)?;
    let mut err = MemSink::new(alloc, err.bytes, err.fail)?;
    let ended = emulate(alloc, words, &mut host, &mut input, &mut out, &mut err);
    Ok(Left { ended, out, err })
}

/// The same by the texts of its words.
fn run_command(
    alloc: Global,
    words: &[&str],
    bytes: &[u8],
    out: Room,
    err: Room,
) -> Result<Left, AllocError> {
    let words = line(alloc, words, &[], &[])?;
    run_words(alloc, &words, bytes, out, err)
}

/// Runs a program whose pages lie so, by the words that follow.
fn run_program(
    alloc: Global,
    frames: &[&str],
    rest: &[&str],
    bytes: &[u8],
    out: Room,
    err: Room,
) -> Result<Left, AllocError> {
    let words = line(alloc, &["run"], frames, rest)?;
    run_words(alloc, &words, bytes, out, err)
}

/// The sample program with other bytes at some places.
fn hello_with(changes: &[(usize, u8)]) -> [u8; 159] {
    let mut bytes = HELLO;
    for (place, byte) in changes {
        if *place < bytes.len() {
            bytes[*place] = *byte;
        }
    }
    bytes
}

/// The sample program with other code at its entry.
fn with_code(code: &[u8]) -> [u8; 159] {
    let mut bytes = HELLO;
    for k in 0..code.len() {
        if k < 39 {
            bytes[120 + k] = code[k];
        }
    }
    bytes
}

/// Writes so many bytes from address 0 to a descriptor, and exits with the number of the error.
fn write_code(descriptor: u8, count: u8) -> [u8; 30] {
    [
        0xB8, 1, 0, 0, 0, 0xBF, descriptor, 0, 0, 0, 0x31, 0xF6, 0xBA, count, 0, 0, 0, 0x0F, 5,
        0xF7, 0xD8, 0x89, 0xC7, 0xB8, 60, 0, 0, 0, 0x0F, 5,
    ]
}

/// The sample program with its text at the end of its first page and the start of its second.
fn two_pages(alloc: Global) -> Result<Vec<u8>, AllocError> {
    let front = hello_with(&[
        (96, 6),
        (97, 0x10),
        (104, 6),
        (105, 0x10),
        (133, 0x71),
        (134, 0x0F),
        (138, 12),
    ]);
    let mut bytes = Vec::from_slice(alloc, &front)?;
    for _ in front.len()..4090 {
        bytes.push(0)?;
    }
    for byte in b"page to page" {
        bytes.push(*byte)?;
    }
    Ok(bytes)
}

fn steps_of(ended: &Ended) -> Option<u64> {
    match &ended.machine {
        Some(machine) => Some(machine.steps),
        None => None,
    }
}

fn rip_of(ended: &Ended) -> Option<u64> {
    match &ended.machine {
        Some(machine) => Some(machine.rip),
        None => None,
    }
}

/// rip, rax, rdx and the flags.
fn registers_of(ended: &Ended) -> Option<[u64; 4]> {
    match &ended.machine {
        Some(machine) => Some([
            machine.rip,
            machine.gprs.get(RAX),
            machine.gprs.get(RDX),
            machine.flags.word(),
        ]),
        None => None,
    }
}

#[test]
fn hello_prints_and_exits_and_its_variants_end_as_they_should(rt: HostRuntime) -> Result<(), Fail> {
    let alloc = rt.alloc();
    let hello: &[(usize, u8)] = &[];
    let unsupported: &[(usize, u8)] = &[(120, 0x0F), (121, 0x58), (122, 0xC1)];
    let other_call: &[(usize, u8)] = &[(121, 7)];
    for (changes, end, status, text, steps) in [
        (hello, End::Exit(0), 0, "hello\n", Some(8)),
        (unsupported, End::Killed(4), 132, "", Some(1)),
        (other_call, End::Exit(0), 0, "", Some(8)),
    ] {
        for frames in FRAMES {
            let image = hello_with(changes);
            let left = run_program(alloc, frames, &["hello"], &image, WIDE, WIDE)?;
            assert_eq!(rt; left.ended.end, end);
            assert_eq!(rt; left.ended.status, status);
            assert_eq!(rt; left.out.bytes(), text.as_bytes());
            assert_eq!(rt; left.err.bytes().len(), 0);
            assert_eq!(rt; steps_of(&left.ended), steps);
        }
    }
    Ok(())
}

/// The file is of the kind that may stand anywhere, with its segment and its entry at the lowest addresses.
#[test]
fn a_program_that_may_stand_anywhere_is_moved_up(rt: HostRuntime) -> Result<(), Fail> {
    let movable: &[(usize, u8)] = &[(16, 3), (26, 0), (82, 0), (90, 0)];
    for frames in FRAMES {
        let image = hello_with(movable);
        let left = run_program(rt.alloc(), frames, &["hello"], &image, WIDE, WIDE)?;
        assert_eq!(rt; left.ended.end, End::Exit(0));
        assert_eq!(rt; left.out.bytes(), "hello\n".as_bytes());
        assert_eq!(rt; rip_of(&left.ended), Some(0x5555_5555_4099));
    }
    Ok(())
}

/// Each row has the code, the end, the status and the steps. The loop is counted and its status computed as a processor
/// does, where the same image was run.
#[test]
fn code_ends_as_it_should(rt: HostRuntime) -> Result<(), Fail> {
    let alloc = rt.alloc();
    let rows: [(&[u8], End, u8, u64); 13] = [
        // mov ecx, 3; lea edi, [rdi + 5]; loop to the lea; mov eax, 60; syscall
        (
            &[
                0xB9, 3, 0, 0, 0, 0x8D, 0x7F, 5, 0xE2, 0xFB, 0xB8, 60, 0, 0, 0, 0x0F, 5,
            ],
            End::Exit(15),
            15,
            9,
        ),
        // a no-operation of ten bytes, mov al, 60 and syscall
        (
            &[
                0x66, 0x2E, 0x0F, 0x1F, 0x84, 0, 0, 0, 0, 0, 0xB0, 60, 0x0F, 5,
            ],
            End::Exit(0),
            0,
            3,
        ),
        // xor ecx, ecx; div ecx; then the least number divided by -1
        (&[0x31, 0xC9, 0xF7, 0xF1], End::Killed(8), 136, 2),
        (
            &[
                0xB8, 0, 0, 0, 0x80, 0x99, 0xB9, 0xFF, 0xFF, 0xFF, 0xFF, 0xF7, 0xF9,
            ],
            End::Killed(8),
            136,
            4,
        ),
        // int3; hlt; ret, to the argument count; fifteen prefixes
        (&[0xCC], End::Killed(5), 133, 1),
        (&[0xF4], End::Killed(11), 139, 1),
        (&[0xF3, 0xC3], End::Killed(11), 139, 2),
        (&[0x66; 15], End::Killed(11), 139, 1),
        // a byte from address 0 is written: EFAULT
        (&write_code(1, 1), End::Exit(14), 14, 9),
        // a page of bytes from the code on, of which the last aren't mapped: EFAULT, and none is put
        (
            &[
                0xB8, 1, 0, 0, 0, 0xBF, 1, 0, 0, 0, 0x48, 0x8D, 0x35, 0, 0, 0, 0, 0xBA, 0, 0x10, 0,
                0, 0x0F, 5, 0xF7, 0xD8, 0x89, 0xC7, 0xB8, 60, 0, 0, 0, 0x0F, 5,
            ],
            End::Exit(14),
            14,
            9,
        ),
        // a byte is written to the descriptors 0 and 7: EBADF
        (&write_code(0, 1), End::Exit(9), 9, 9),
        (&write_code(7, 1), End::Exit(9), 9, 9),
        // no byte
        (&write_code(1, 0), End::Exit(0), 0, 9),
    ];
    for (code, end, status, steps) in rows {
        for frames in FRAMES {
            let left = run_program(alloc, frames, &["hello"], &with_code(code), WIDE, WIDE)?;
            assert_eq!(rt; left.ended.end, end);
            assert_eq!(rt; left.ended.status, status);
            assert_eq!(rt; left.out.bytes().len(), 0);
            assert_eq!(rt; steps_of(&left.ended), Some(steps));
        }
    }
    Ok(())
}

/// Each row has the code, and rip, rax, rdx and the flags of the machine that its last instruction leaves, which ends it.
#[test]
fn a_fault_leaves_the_registers(rt: HostRuntime) -> Result<(), Fail> {
    let rows: [(&[u8], [u64; 4]); 3] = [
        // mov al, 127; add al, 1; int3, which rip is behind
        (&[0xB0, 0x7F, 0x04, 0x01, 0xCC], [0x40_007D, 0x80, 0, 0xA92]),
        // mov eax, 0x80000000; cdq; mov ecx, -1; idiv ecx
        (
            &[
                0xB8, 0, 0, 0, 0x80, 0x99, 0xB9, 0xFF, 0xFF, 0xFF, 0xFF, 0xF7, 0xF9,
            ],
            [0x40_0083, 0x8000_0000, 0xFFFF_FFFF, 0x202],
        ),
        // xor ecx, ecx; div ecx
        (&[0x31, 0xC9, 0xF7, 0xF1], [0x40_007A, 0, 0, 0x246]),
    ];
    for (code, registers) in rows {
        for frames in FRAMES {
            let left = run_program(rt.alloc(), frames, &["hello"], &with_code(code), WIDE, WIDE)?;
            assert_eq!(rt; registers_of(&left.ended), Some(registers));
        }
    }
    Ok(())
}

/// A command line with what its end is and what it puts: on the sample program, cut to so many bytes.
#[derive(Clone, Copy)]
struct CommandRow {
    words: &'static [&'static str],
    len: usize,
    end: End,
    status: u8,
    out: &'static str,
    err: &'static str,
}

fn words_row(words: &'static [&'static str], word: u32, kind: u8, err: &'static str) -> CommandRow {
    CommandRow {
        words,
        len: 159,
        end: End::Words(WordFault { word, kind }),
        status: 64,
        out: "",
        err,
    }
}

fn image_row(len: usize, number: u8, place: u64, err: &'static str) -> CommandRow {
    CommandRow {
        words: &["run", "hello"],
        len,
        end: End::Image(ImageFault { number, place }),
        status: 65,
        out: "",
        err,
    }
}

fn run_row(
    words: &'static [&'static str],
    end: End,
    status: u8,
    out: &'static str,
    err: &'static str,
) -> CommandRow {
    CommandRow {
        words,
        len: 159,
        end,
        status,
        out,
        err,
    }
}

#[test]
fn commands_end_and_say_what_they_should(rt: HostRuntime) -> Result<(), Fail> {
    let alloc = rt.alloc();
    let missing = End::Host(HostCall::Load(1));
    for row in [
        words_row(&[], 0, 1, "xemu: words 0 1\n"),
        words_row(&["walk", "hello"], 0, 1, "xemu: words 0 1\n"),
        words_row(&["run", "--fast", "hello"], 1, 2, "xemu: words 1 2\n"),
        words_row(&["run", "--budget"], 2, 3, "xemu: words 2 3\n"),
        words_row(
            &["run", "--budget", "07", "hello"],
            2,
            4,
            "xemu: words 2 4\n",
        ),
        words_row(
            &["run", "--pages", "511", "hello"],
            2,
            4,
            "xemu: words 2 4\n",
        ),
        words_row(
            &["run", "--report", "--report", "hello"],
            2,
            5,
            "xemu: words 2 5\n",
        ),
        words_row(&["run", ""], 1, 6, "xemu: words 1 6\n"),
        words_row(&["run", "--report"], 2, 7, "xemu: words 2 7\n"),
        words_row(
            &["run", "--resident", "8", "hello"],
            0,
            9,
            "xemu: words 0 9\n",
        ),
        words_row(&["run", "hello", "\0"], 2, 12, "xemu: words 2 12\n"),
        image_row(0, 1, 0, "xemu: image 1 at 0\n"),
        image_row(63, 1, 63, "xemu: image 1 at 63\n"),
        image_row(119, 10, 32, "xemu: image 10 at 32\n"),
        image_row(158, 12, 96, "xemu: image 12 at 96\n"),
        run_row(&["run", "none"], missing, 74, "", ""),
    ] {
        let len = row.len.min(HELLO.len());
        let left = run_command(alloc, row.words, &HELLO[..len], WIDE, WIDE)?;
        assert_eq!(rt; left.ended.end, row.end);
        assert_eq!(rt; left.ended.status, row.status);
        assert_eq!(rt; left.out.bytes(), row.out.as_bytes());
        assert_eq!(rt; left.err.bytes(), row.err.as_bytes());
    }
    Ok(())
}

/// Each row has the words behind those of the frames, the end, the status, the output and the error output.
#[test]
fn runs_end_and_say_what_they_should(rt: HostRuntime) -> Result<(), Fail> {
    let rows: [(&[&str], End, u8, &str, &str); 4] = [
        (&["hello"], End::Exit(0), 0, "hello\n", ""),
        (
            &["--budget", "3", "--report", "hello"],
            End::Budget,
            75,
            "",
            "xemu: budget 3\n",
        ),
        (&["--budget", "7", "hello"], End::Budget, 75, "hello\n", ""),
        (
            &["--budget", "8", "--report", "--seed", "1", "hello"],
            End::Exit(0),
            0,
            "hello\n",
            "xemu: exit 0 steps 8\n",
        ),
    ];
    for (words, end, status, out, err) in rows {
        for frames in FRAMES {
            let left = run_program(rt.alloc(), frames, words, &HELLO, WIDE, WIDE)?;
            assert_eq!(rt; left.ended.end, end);
            assert_eq!(rt; left.ended.status, status);
            assert_eq!(rt; left.out.bytes(), out.as_bytes());
            assert_eq!(rt; left.err.bytes(), err.as_bytes());
        }
    }
    Ok(())
}

#[test]
fn a_start_stack_that_is_too_long_is_refused(rt: HostRuntime) -> Result<(), Fail> {
    let word = long_word(rt.alloc(), 131_072)?;
    let left = run_command(
        rt.alloc(),
        &["run", "hello", word.as_str()],
        &HELLO,
        WIDE,
        WIDE,
    )?;
    assert_eq!(rt; left.ended.end, End::Start(TooLong { size: 131_488 }));
    assert_eq!(rt; left.ended.status, 65);
    assert_eq!(rt; left.err.bytes(), "xemu: start 131488\n".as_bytes());
    Ok(())
}

/// Each row has the code, the words and the exit status: the number of arguments, the first byte of the first environment text, the
/// low byte of the stack pointer, and of the stack pointer with an argument of 16 bytes more.
#[test]
fn a_program_sees_its_start_stack(rt: HostRuntime) -> Result<(), Fail> {
    // mov edi, [rsp]; mov eax, 60; syscall
    let count: &[u8] = &[0x8B, 0x3C, 0x24, 0xB8, 60, 0, 0, 0, 0x0F, 5];
    // mov rax, [rsp + 24]; movzx edi, byte [rax]; mov eax, 60; syscall
    let env: &[u8] = &[
        0x48, 0x8B, 0x44, 0x24, 24, 0x0F, 0xB6, 0x38, 0xB8, 60, 0, 0, 0, 0x0F, 5,
    ];
    // mov edi, esp; mov eax, 60; syscall
    let pointer: &[u8] = &[0x89, 0xE7, 0xB8, 60, 0, 0, 0, 0x0F, 5];
    let rows: [(&[u8], &[&str], u8); 4] = [
        (count, &["hello", "a", "bc"], 3),
        (env, &["--env", "Ab=c", "--env", "D", "hello"], 65),
        (pointer, &["hello"], 0x70),
        (pointer, &["hello", "0123456"], 0x60),
    ];
    for (code, words, status) in rows {
        for frames in FRAMES {
            let left = run_program(rt.alloc(), frames, words, &with_code(code), WIDE, WIDE)?;
            assert_eq!(rt; left.ended.end, End::Exit(status));
        }
    }
    Ok(())
}

/// A line of which three bytes were put ended the command, behind this output.
fn expect_front(rt: &impl Abort, left: &Left, text: &str) {
    assert_eq!(rt; left.ended.end, End::Host(HostCall::PutErr));
    assert_eq!(rt; left.ended.status, 74);
    assert_eq!(rt; left.out.bytes(), text.as_bytes());
    assert_eq!(rt; left.err.bytes(), "xem".as_bytes());
    assert_eq!(rt; steps_of(&left.ended), None);
}

#[test]
fn a_line_that_cannot_be_put_ends_the_command(rt: HostRuntime) -> Result<(), Fail> {
    let err = Room {
        bytes: 100,
        fail: &[(1, 3)],
    };
    let left = run_command(rt.alloc(), &["walk"], &HELLO, WIDE, err)?;
    expect_front(&rt, &left, "");
    for frames in FRAMES {
        let left = run_program(
            rt.alloc(),
            frames,
            &["--report", "hello"],
            &HELLO,
            WIDE,
            err,
        )?;
        expect_front(&rt, &left, "hello\n");
    }
    Ok(())
}

#[test]
fn a_failing_sink_ends_the_run_with_what_it_took(rt: HostRuntime) -> Result<(), Fail> {
    let alloc = rt.alloc();
    for (room, taken, text) in [
        (100, 0, ""),
        (100, 2, "he"),
        (100, 6, "hello\n"),
        (5, 6, ""),
    ] {
        let out = Room {
            bytes: room,
            fail: &[(1, taken)],
        };
        for frames in FRAMES {
            let left = run_program(alloc, frames, &["hello"], &HELLO, out, WIDE)?;
            assert_eq!(rt; left.ended.end, End::Host(HostCall::PutOut));
            assert_eq!(rt; left.ended.status, 74);
            assert_eq!(rt; left.out.bytes(), text.as_bytes());
            assert_eq!(rt; left.err.bytes().len(), 0);
            assert_eq!(rt; steps_of(&left.ended), None);
        }
    }
    Ok(())
}

#[test]
fn a_write_of_no_bytes_calls_no_sink(rt: HostRuntime) -> Result<(), Fail> {
    let image = with_code(&write_code(1, 0));
    let failing = Room {
        bytes: 100,
        fail: &[(1, 0)],
    };
    for frames in FRAMES {
        let left = run_program(rt.alloc(), frames, &["hello"], &image, failing, WIDE)?;
        assert_eq!(rt; left.ended.end, End::Exit(0));
        assert_eq!(rt; steps_of(&left.ended), Some(9));
    }
    Ok(())
}

#[test]
fn a_write_goes_over_the_end_of_a_page(rt: HostRuntime) -> Result<(), Fail> {
    let image = two_pages(rt.alloc())?;
    let none: &[(u64, usize)] = &[];
    let second: &[(u64, usize)] = &[(2, 3)];
    for (fail, end, text, steps) in [
        (none, End::Exit(0), "page to page", Some(8)),
        (second, End::Host(HostCall::PutOut), "page to p", None),
    ] {
        for frames in FRAMES {
            let out = Room { bytes: 100, fail };
            let left = run_program(rt.alloc(), frames, &["hello"], &image, out, WIDE)?;
            assert_eq!(rt; left.ended.end, end);
            assert_eq!(rt; left.out.bytes(), text.as_bytes());
            assert_eq!(rt; steps_of(&left.ended), steps);
        }
    }
    Ok(())
}

#[test]
fn descriptor_two_is_the_error_output(rt: HostRuntime) -> Result<(), Fail> {
    let image = hello_with(&[(126, 2)]);
    let none: &[(u64, usize)] = &[];
    let first: &[(u64, usize)] = &[(1, 2)];
    for (fail, end, status, text) in [
        (none, End::Exit(0), 0, "hello\n"),
        (first, End::Host(HostCall::PutErr), 74, "he"),
    ] {
        for frames in FRAMES {
            let err = Room { bytes: 100, fail };
            let left = run_program(rt.alloc(), frames, &["hello"], &image, WIDE, err)?;
            assert_eq!(rt; left.ended.end, end);
            assert_eq!(rt; left.ended.status, status);
            assert_eq!(rt; left.err.bytes(), text.as_bytes());
            assert_eq!(rt; left.out.bytes().len(), 0);
        }
    }
    Ok(())
}
