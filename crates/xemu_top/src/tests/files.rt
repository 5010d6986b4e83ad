//! Programs that read and write files, each with a frame for each page, and with eight frames and a swap.
ghost use Rattle.std.specs.Prelude.{◌≤◌, IfOk, length};

use super::*;
use host_edge::Host;

/// Reads ten bytes of the input, writes four to the output, and exits with the number of those that it read.
static READ: [u8; 44] = [
    0x31, 0xC0, 0x31, 0xFF, 0x48, 0x8D, 0x74, 0x24, 0xC0, 0xBA, 0x0A, 0, 0, 0, 0x0F, 5, 0x89, 0xC3,
    0xBA, 4, 0, 0, 0, 0xBF, 1, 0, 0, 0, 0xB8, 1, 0, 0, 0, 0x0F, 5, 0x89, 0xDF, 0xB8, 0x3C, 0, 0, 0,
    0x0F, 5,
];

/// Maps 512 pages, 255 and one, of which only the 255 are granted, and exits with the errors of the others, and 64 more if those weren't.
static MAP: [u8; 83] = [
    0x41, 0xBA, 0x22, 0, 0, 0, 0x49, 0xC7, 0xC0, 0xFF, 0xFF, 0xFF, 0xFF, 0x45, 0x31, 0xC9, 0xBA, 3,
    0, 0, 0, 0x31, 0xFF, 0xBE, 0, 0, 0x20, 0, 0xB8, 9, 0, 0, 0, 0x0F, 5, 0x89, 0xC3, 0xBE, 0, 0xF0,
    0x0F, 0, 0xB8, 9, 0, 0, 0, 0x0F, 5, 0x48, 0xC1, 0xE8, 0x3F, 0xC1, 0xE0, 6, 0x29, 0xC3, 0xBE, 0,
    0x10, 0, 0, 0xB8, 9, 0, 0, 0, 0x0F, 5, 1, 0xC3, 0xF7, 0xDB, 0x89, 0xDF, 0xB8, 0x3C, 0, 0, 0,
    0x0F, 5,
];

/// Opens the file `a`, maps two bytes of it, closes it and writes them to the output. It exits with the errors of opening `a` to write
/// and of opening `b`.
static OPEN: [u8; 134] = [
    0x48, 0x8D, 0x3D, 0x7B, 0, 0, 0, 0x31, 0xF6, 0xB8, 2, 0, 0, 0, 0x0F, 5, 0x41, 0x89, 0xC0, 0x31,
    0xFF, 0xBE, 2, 0, 0, 0, 0xBA, 1, 0, 0, 0, 0x41, 0xBA, 2, 0, 0, 0, 0x45, 0x31, 0xC9, 0xB8, 9, 0,
    0, 0, 0x0F, 5, 0x48, 0x89, 0xC5, 0x44, 0x89, 0xC7, 0xB8, 3, 0, 0, 0, 0x0F, 5, 0xBF, 1, 0, 0, 0,
    0x48, 0x89, 0xEE, 0xBA, 2, 0, 0, 0, 0xB8, 1, 0, 0, 0, 0x0F, 5, 0x48, 0x8D, 0x3D, 0x2B, 0, 0, 0,
    0xBE, 1, 0, 0, 0, 0xB8, 2, 0, 0, 0, 0x0F, 5, 0x89, 0xC3, 0x48, 0x8D, 0x3D, 0x18, 0, 0, 0, 0x31,
    0xF6, 0xB8, 2, 0, 0, 0, 0x0F, 5, 1, 0xC3, 0xF7, 0xDB, 0x89, 0xDF, 0xB8, 0x3C, 0, 0, 0, 0x0F, 5,
    0x61, 0, 0x62, 0,
];

/// Makes the files `a` and `b`, and writes three bytes to the one and two to the other.
static MAKE: [u8; 96] = [
    0x48, 0x8D, 0x3D, 0x52, 0, 0, 0, 0xBE, 0x41, 0, 0, 0, 0xB8, 2, 0, 0, 0, 0x0F, 5, 0x89, 0xC7,
    0x48, 0x8D, 0x35, 0x41, 0, 0, 0, 0xBA, 3, 0, 0, 0, 0xB8, 1, 0, 0, 0, 0x0F, 5, 0x48, 0x8D, 0x3D,
    0x2C, 0, 0, 0, 0xBE, 0x41, 0, 0, 0, 0xB8, 2, 0, 0, 0, 0x0F, 5, 0x89, 0xC7, 0x48, 0x8D, 0x35,
    0x19, 0, 0, 0, 0xBA, 2, 0, 0, 0, 0xB8, 1, 0, 0, 0, 0x0F, 5, 0x31, 0xFF, 0xB8, 0x3C, 0, 0, 0,
    0x0F, 5, 0x61, 0, 0x62, 0, 0x78, 0x79, 0x7A,
];

/// Copies each argument to the end of one page and the start of the next, finds its length there 32 bytes at a time, and writes it with
/// the line feed that stands on a page of its heap. It exits with 3.
static USUAL: [u8; 199] = [
    0x4C, 0x8B, 0x24, 0x24, 0x4C, 0x8D, 0x6C, 0x24, 8, 0xB8, 0x0C, 0, 0, 0, 0x31, 0xFF, 0x0F, 5,
    0x49, 0x89, 0xC6, 0x48, 0x8D, 0xB8, 0, 0x10, 0, 0, 0xB8, 0x0C, 0, 0, 0, 0x0F, 5, 0x41, 0xC6, 6,
    0x0A, 0xC5, 0xF9, 0xEF, 0xC0, 0x49, 0x8B, 0x75, 0, 0x48, 0x89, 0xE3, 0x48, 0x81, 0xE3, 0, 0xF0,
    0xFF, 0xFF, 0x48, 0x81, 0xEB, 1, 0x10, 0, 0, 0x48, 0x89, 0xDF, 0xAC, 0xAA, 0x84, 0xC0, 0x75,
    0xFA, 0x48, 0x89, 0xDE, 0x48, 0x83, 0xE6, 0xE0, 0x89, 0xD9, 0x83, 0xE1, 0x1F, 0xC5, 0xFD, 0x74,
    0x0E, 0xC5, 0xFD, 0xD7, 0xC1, 0xD3, 0xE8, 0x31, 0xD2, 0x85, 0xC0, 0x75, 0x15, 0x29, 0xCA, 0x83,
    0xC2, 0x20, 0x48, 0x83, 0xC6, 0x20, 0xC5, 0xFD, 0x74, 0x0E, 0xC5, 0xFD, 0xD7, 0xC1, 0x85, 0xC0,
    0x74, 0xED, 0xF3, 0x0F, 0xBC, 0xC0, 1, 0xD0, 0x48, 0x89, 0x5C, 0x24, 0xC0, 0x48, 0x89, 0x44,
    0x24, 0xC8, 0x4C, 0x89, 0x74, 0x24, 0xD0, 0x48, 0xC7, 0x44, 0x24, 0xD8, 1, 0, 0, 0, 0xB8, 0x14,
    0, 0, 0, 0xBF, 1, 0, 0, 0, 0x48, 0x8D, 0x74, 0x24, 0xC0, 0xBA, 2, 0, 0, 0, 0x0F, 5, 0x49, 0x83,
    0xC5, 8, 0x49, 0xFF, 0xCC, 0x0F, 0x85, 0x70, 0xFF, 0xFF, 0xFF, 0xB8, 0xE7, 0, 0, 0, 0xBF, 3, 0,
    0, 0, 0x0F, 5,
];

/// A program's run: its code, the options, how much room the host has for stores, and the failing puts; then how it ends, what it
/// puts, and what then stands under the paths `q` and `r`.
#[derive(Clone, Copy)]
struct Play {
    code: &'static [u8],
    options: &'static [&'static str],
    room: usize,
    fail: &'static [(u64, usize)],
    end: End,
    status: u8,
    out: &'static str,
    err: &'static str,
    stored: [Option<&'static str>; 2],
}

/// The program file of some code.
fn program(alloc: Global, code: &[u8]) -> Result<Vec<u8>, AllocError>
    ensures { IfOk result (λ bytes. length bytes.items ≤ 400) }
{
    let len = 120 + code.len().min(280);
    let low = (len % 256) as u8;
    let high = (len / 256) as u8;
    let front = hello_with(&[(96, low), (97, high), (104, low), (105, high)]);
    let mut bytes = Vec::from_slice(alloc, &front)?;
    bytes.truncate(120);
    for byte in code {
        bytes.push(*byte)?;
    }
    bytes.truncate(400);
    Ok(bytes)
}

/// The words of a run of the program.
fn words_of(alloc: Global, options: &[&str], frames: &[&str]) -> Result<Vec<String>, AllocError> {
    let mut words = line(alloc, &["run"], options, frames)?;
    words.push(String::from_str(alloc, "program")?)?;
    Ok(words)
}

/// The host of a run: with the program, and with `xy` under the path `p`.
fn host_of(alloc: Global, play: &Play) -> Result<MemHost, AllocError> {
    let bytes = program(alloc, play.code)?;
    let files = vec![in alloc; file(alloc, "program", &bytes)?, file(alloc, "p", b"xy")?]?;
    MemHost::new(
        alloc,
        files,
        bytes.len() + 10 + play.room.min(100),
        512,
        &[],
    )
}

/// The bytes that a host has under a path.
fn bytes_at(host: &mut MemHost, path: &str, into: &mut [u8; 8]) -> Option<usize> {
    match host.load(path, into) {
        Ok(len) => Some(len as usize),
        Err(_) => None,
    }
}

/// A run that reads and writes.
fn reading() -> Play {
    Play {
        code: &READ,
        options: &[],
        room: 100,
        fail: &[],
        end: End::Exit(3),
        status: 3,
        out: "abc\0",
        err: "",
        stored: [None, None],
    }
}

#[test]
fn files_and_frames_do_what_they_should(rt: HostRuntime) -> Result<(), Fail> {
    let alloc = rt.alloc();
    let to_files: &[&str] = &["--out", "a=q", "--out", "b=r"];
    for play in [
        reading(),
        // the put fails after two bytes
        Play {
            fail: &[(1, 2)],
            end: End::Host(HostCall::PutOut),
            status: 74,
            out: "ab",
            ..reading()
        },
        Play {
            code: &MAP,
            end: End::Exit(24),
            status: 24,
            out: "",
            ..reading()
        },
        Play {
            code: &OPEN,
            options: &["--in", "a=p", "--report"],
            end: End::Exit(32),
            status: 32,
            out: "xy",
            err: "xemu: exit 32 steps 35\n",
            ..reading()
        },
        Play {
            code: &MAKE,
            options: to_files,
            end: End::Exit(0),
            status: 0,
            out: "",
            stored: [Some("xyz"), Some("xy")],
            ..reading()
        },
        // there is room for the first store alone
        Play {
            code: &MAKE,
            options: to_files,
            room: 4,
            end: End::Host(HostCall::Store(4)),
            status: 74,
            out: "",
            stored: [Some("xyz"), None],
            ..reading()
        },
        // a file is longer than may be, and one isn't there
        Play {
            code: &OPEN,
            options: &["--in", "a=p", "--cap", "1"],
            end: End::Words(WordFault { word: 2, kind: 10 }),
            status: 64,
            out: "",
            err: "xemu: words 2 10\n",
            ..reading()
        },
        Play {
            code: &OPEN,
            options: &["--in", "a=p", "--in", "b=none"],
            end: End::Host(HostCall::Load(4)),
            status: 74,
            out: "",
            ..reading()
        },
        // files are loaded in the order of their words
        Play {
            code: &OPEN,
            options: &["--cap", "1", "--in", "b=none", "--in", "a=p"],
            end: End::Host(HostCall::Load(4)),
            status: 74,
            out: "",
            ..reading()
        },
    ] {
        for frames in FRAMES {
            let words = words_of(alloc, play.options, frames)?;
            let mut host = host_of(alloc, &play)?;
            let mut input = MemSource::new(alloc, b"abc", 2, &[])?;
            let mut out = MemSink::new(alloc, 100, play.fail)?;
            let mut err = MemSink::new(alloc, 100, &[])?;
            let ended = emulate(alloc, &words, &mut host, &mut input, &mut out, &mut err);
            assert_eq!(rt; ended.end, play.end);
            assert_eq!(rt; ended.status, play.status);
            assert_eq!(rt; out.bytes(), play.out.as_bytes());
            assert_eq!(rt; err.bytes(), play.err.as_bytes());
            for k in 0..2 {
                let mut into = [0u8; 8];
                let path = if k == 0 { "q" } else { "r" };
                match (bytes_at(&mut host, path, &mut into), play.stored[k]) {
                    (Some(len), Some(text)) => assert_eq!(rt; &into[..len.min(8)], text.as_bytes()),
                    (found, wanted) => assert_eq!(rt; found.is_some(), wanted.is_some()),
                }
            }
        }
    }
    Ok(())
}

/// Runs the program that writes its words, with its pages so.
fn expect_words(rt: &impl Abort, alloc: Global, frames: &[&str]) -> Result<(), Fail> {
    let words = line(alloc, &["run"], frames, &["t", "a", "bc"])?;
    let bytes = program(alloc, &USUAL)?;
    let files = vec![in alloc; file(alloc, "t", &bytes)?]?;
    let mut host = MemHost::new(alloc, files, bytes.len() + 1, 512, &[])?;
    let mut input = MemSource::new(alloc, b"", 1, &[])?;
    let mut out = MemSink::new(alloc, 100, &[])?;
    let mut err = MemSink::new(alloc, 100, &[])?;
    let ended = emulate(alloc, &words, &mut host, &mut input, &mut out, &mut err);
    assert_eq!(rt; ended.end, End::Exit(3));
    assert_eq!(rt; ended.status, 3);
    assert_eq!(rt; out.bytes(), "t\na\nbc\n".as_bytes());
    assert_eq!(rt; err.bytes().len(), 0);
    assert_eq!(rt; steps_of(&ended), Some(150));
    Ok(())
}

#[test]
fn a_usual_program_writes_its_words(rt: HostRuntime) -> Result<(), Fail> {
    expect_words(&rt, rt.alloc(), &[])?;
    for frames in FRAMES {
        expect_words(&rt, rt.alloc(), frames)?;
    }
    Ok(())
}
