//! Words that are accepted, and words that are refused: each kind, each pair of faults that can be at one word, and faults at two.

use crate::*;
use std::alloc::{AllocError, Global};
use std::process::Abort;
use std::test::Fail;

/// What accepted words say.
#[derive(Clone, Copy)]
struct Said {
    budget: u64,
    pages: u32,
    resident: u32,
    swap: Option<u32>,
    cap: u32,
    seed: u64,
    report: bool,
    env: &'static [u32],
    ins: &'static [u32],
    outs: &'static [u32],
    program: u32,
}

const DEFAULTS: Said = Said {
    budget: 1_000_000_000_000,
    pages: 16_384,
    resident: 16_384,
    swap: None,
    cap: 16_777_216,
    seed: 0,
    report: false,
    env: &[],
    ins: &[],
    outs: &[],
    program: 1,
};

type Words = &'static [&'static str];

/// Words, and the place and kind of their refusal.
static REFUSED: [(Words, u32, u8); 50] = [
    (&[], 0, 1),
    (&[""], 0, 1),
    (&["demo", "1"], 0, 1),
    (&["Run", "hello"], 0, 1),
    (&["runs", "hello"], 0, 1),
    (&["hello", "--fast"], 0, 1),
    (&["run", "--fast", "hello"], 1, 2),
    (&["run", "--"], 1, 2),
    (&["run", "--Seed", "1", "hello"], 1, 2),
    (&["run", "--seed=1", "hello"], 1, 2),
    (&["run", "--monitor", "1", "hello"], 1, 2),
    (&["run", "--report\0", "hello"], 1, 2),
    (&["run", "--fast", "--budget", "07"], 1, 2),
    (&["run", "--report", "--fast"], 2, 2),
    (&["run", "--budget"], 2, 3),
    (&["run", "--report", "--env"], 3, 3),
    (&["run", "--seed", "1", "--pages"], 4, 3),
    (&["run", "--budget", "07", "hello"], 2, 4),
    (&["run", "--budget", "00", "hello"], 2, 4),
    (&["run", "--budget", "", "hello"], 2, 4),
    (&["run", "--budget", "+1", "hello"], 2, 4),
    (&["run", "--budget", "-1", "hello"], 2, 4),
    (&["run", "--budget", "1 ", "hello"], 2, 4),
    (&["run", "--budget", "1\0", "hello"], 2, 4),
    (&["run", "--budget", "0x1", "hello"], 2, 4),
    (&["run", "--budget", "--report", "hello"], 2, 4),
    (&["run", "--budget", "18446744073709551616", "hello"], 2, 4),
    (&["run", "--seed", "18446744073709551616", "hello"], 2, 4),
    (&["run", "--pages", "511", "hello"], 2, 4),
    (&["run", "--pages", "262145", "hello"], 2, 4),
    (&["run", "--pages", "4294967808", "hello"], 2, 4),
    (&["run", "--pages", "0", "hello"], 2, 4),
    (&["run", "--seed", "x", "--seed", "1"], 2, 4),
    (&["run", "--seed", "1", "--seed", "1", "hello"], 3, 5),
    (&["run", "--pages", "512", "--pages", "1"], 3, 5),
    (&["run", "--budget", "1", "--budget"], 3, 5),
    (&["run", "--report", "--report", "hello"], 2, 5),
    (&["run", "--report", "--seed", "1", "--report"], 4, 5),
    (&["run", ""], 1, 6),
    (&["run", "--report", "", "a\0"], 2, 6),
    (&["run"], 1, 7),
    (&["run", "--report"], 2, 7),
    (&["run", "--env", "hello"], 3, 7),
    (&["run", "\0"], 1, 12),
    (&["run", "hello\0", "a\0"], 1, 12),
    (&["run", "--env", "A=\0", "hello"], 2, 12),
    (&["run", "--env", "\0"], 2, 12),
    (&["run", "hello", "\0"], 2, 12),
    (&["run", "hello", "", "--seed", "07\0"], 4, 12),
    (&["run", "--env", "A\0", "--env", "B\0"], 2, 12),
];

fn refused() -> &'static [(Words, u32, u8)] {
    &REFUSED
}

/// Words of frames, swap and files, and the place and kind of their refusal.
static REFUSED_FILES: [(Words, u32, u8); 60] = [
    (&["run", "--inn", "a=p", "hello"], 1, 2),
    (&["run", "--in=a=p", "hello"], 1, 2),
    (&["run", "--Swap", "s", "hello"], 1, 2),
    (&["run", "--resident"], 2, 3),
    (&["run", "--swap"], 2, 3),
    (&["run", "--cap"], 2, 3),
    (&["run", "--in"], 2, 3),
    (&["run", "--in", "a=p", "--out"], 4, 3),
    (&["run", "--in", "a=p", "--in"], 4, 3),
    (&["run", "--resident", "8", "--out"], 4, 3),
    (&["run", "--resident", "7", "hello"], 2, 4),
    (&["run", "--resident", "08", "hello"], 2, 4),
    (&["run", "--resident", "", "hello"], 2, 4),
    (
        &["run", "--resident", "18446744073709551616", "hello"],
        2,
        4,
    ),
    (
        &["run", "--resident", "18446744073709551616", "--fast"],
        2,
        4,
    ),
    (&["run", "--resident", "16385", "hello"], 2, 4),
    (
        &["run", "--resident", "18446744073709551615", "hello"],
        2,
        4,
    ),
    (
        &["run", "--resident", "4294967304", "--swap", "s", "hello"],
        2,
        4,
    ),
    (
        &["run", "--resident", "513", "--pages", "512", "hello"],
        2,
        4,
    ),
    (
        &["run", "--pages", "512", "--resident", "513", "hello"],
        4,
        4,
    ),
    (
        &[
            "run",
            "--pages",
            "512",
            "--resident",
            "513",
            "--swap",
            "s",
            "hello",
            "a",
        ],
        4,
        4,
    ),
    (&["run", "--resident", "16385", "hello", "\0"], 4, 12),
    (&["run", "--resident", "16385", "--fast"], 3, 2),
    (&["run", "--resident", "16385", "--swap"], 4, 3),
    (&["run", "--cap", "0", "hello"], 2, 4),
    (&["run", "--cap", "67108865", "hello"], 2, 4),
    (&["run", "--cap", "01", "hello"], 2, 4),
    (&["run", "--cap", "4294967297", "hello"], 2, 4),
    (
        &["run", "--resident", "8", "--resident", "8", "hello"],
        3,
        5,
    ),
    (&["run", "--swap", "s", "--swap", "s", "hello"], 3, 5),
    (&["run", "--cap", "1", "--cap", "0"], 3, 5),
    (&["run", "--in", "a=p", "--in", "a=q", "hello"], 3, 5),
    (&["run", "--out", "a=p", "--out", "a=p", "hello"], 3, 5),
    (&["run", "--in", "a=p", "--out", "a=p", "--in", "a=q"], 5, 5),
    (
        &["run", "--in", "a=p", "--out", "a=p", "--out", "a=q"],
        5,
        5,
    ),
    (&["run", "--in", "a=p", "--in", "a=q\0", "hello"], 3, 5),
    (&["run", "--swap", "", "hello"], 2, 6),
    (&["run", "--in", "a", "hello"], 2, 6),
    (&["run", "--in", "", "hello"], 2, 6),
    (&["run", "--in", "=", "hello"], 2, 6),
    (&["run", "--in", "=p", "hello"], 2, 6),
    (&["run", "--in", "a=", "hello"], 2, 6),
    (&["run", "--out", "a=", "hello"], 2, 6),
    (&["run", "--out", "==", "hello"], 2, 6),
    (&["run", "--in", "a=p", "--in", "a=", "hello"], 4, 6),
    (&["run", "--in", "a=p", "--in", "a", "hello"], 4, 6),
    (&["run", "--out", "--out", "a=p"], 2, 6),
    (&["run", "--resident", "8"], 3, 7),
    (&["run", "--resident", "16385"], 3, 7),
    (&["run", "--in", "a=p"], 3, 7),
    (&["run", "--resident", "8", "hello"], 0, 9),
    (&["run", "--resident", "16383", "hello"], 0, 9),
    (
        &["run", "--pages", "512", "--resident", "511", "hello"],
        0,
        9,
    ),
    (
        &["run", "--resident", "512", "--pages", "513", "hello", "a"],
        0,
        9,
    ),
    (&["run", "--resident", "8", "--fast"], 3, 2),
    (&["run", "--resident", "8", "hello", "a\0"], 4, 12),
    (&["run", "--in", "a\0=p", "hello"], 2, 12),
    (&["run", "--in", "a=p\0", "hello"], 2, 12),
    (&["run", "--out", "\0", "hello"], 2, 12),
    (&["run", "--out", "=\0", "hello"], 2, 12),
];

fn refused_files() -> &'static [(Words, u32, u8)] {
    &REFUSED_FILES
}

/// Words, and what they say.
static ACCEPTED: [(Words, Said); 27] = [
    (&["run", "hello"], DEFAULTS),
    (&["run", "-x"], DEFAULTS),
    (&["run", "-", "--"], DEFAULTS),
    (&["run", "hello", "", "a"], DEFAULTS),
    (
        &["run", "hello", "--seed", "07", "--fast", "--seed"],
        DEFAULTS,
    ),
    (&["run", "run", "run"], DEFAULTS),
    (
        &["run", "--budget", "0", "hello"],
        Said {
            budget: 0,
            program: 3,
            ..DEFAULTS
        },
    ),
    (
        &[
            "run",
            "--budget",
            "18446744073709551615",
            "--pages",
            "512",
            "hello",
        ],
        Said {
            budget: 18_446_744_073_709_551_615,
            pages: 512,
            resident: 512,
            program: 5,
            ..DEFAULTS
        },
    ),
    (
        &[
            "run",
            "--pages",
            "262144",
            "--seed",
            "18446744073709551615",
            "hello",
        ],
        Said {
            pages: 262_144,
            resident: 262_144,
            seed: 18_446_744_073_709_551_615,
            program: 5,
            ..DEFAULTS
        },
    ),
    (
        &["run", "--report", "--seed", "10", "hello", "--report"],
        Said {
            seed: 10,
            report: true,
            program: 4,
            ..DEFAULTS
        },
    ),
    (
        &["run", "--env", "--report", "hello"],
        Said {
            env: &[2],
            program: 3,
            ..DEFAULTS
        },
    ),
    (
        &[
            "run", "--env", "", "--report", "--env", "A=1", "--env", "A=1", "./hello",
        ],
        Said {
            report: true,
            env: &[2, 5, 7],
            program: 8,
            ..DEFAULTS
        },
    ),
    (
        &[
            "run", "--seed", "3", "--pages", "600", "--budget", "9", "--report", "a", "b",
        ],
        Said {
            budget: 9,
            pages: 600,
            resident: 600,
            seed: 3,
            report: true,
            program: 8,
            ..DEFAULTS
        },
    ),
    (
        &["run", "--resident", "8", "--swap", "s", "hello"],
        Said {
            resident: 8,
            swap: Some(4),
            program: 5,
            ..DEFAULTS
        },
    ),
    (
        &[
            "run",
            "--swap",
            "--resident",
            "--resident",
            "16384",
            "hello",
        ],
        Said {
            swap: Some(2),
            program: 5,
            ..DEFAULTS
        },
    ),
    (
        &["run", "--swap", "s\0", "hello"],
        Said {
            swap: Some(2),
            program: 3,
            ..DEFAULTS
        },
    ),
    (
        &["run", "--resident", "16384", "hello"],
        Said {
            program: 3,
            ..DEFAULTS
        },
    ),
    (
        &["run", "--resident", "512", "--pages", "512", "hello"],
        Said {
            pages: 512,
            resident: 512,
            program: 5,
            ..DEFAULTS
        },
    ),
    (
        &["run", "--pages", "20000", "--resident", "20000", "hello"],
        Said {
            pages: 20_000,
            resident: 20_000,
            program: 5,
            ..DEFAULTS
        },
    ),
    (
        &[
            "run",
            "--resident",
            "17000",
            "--swap",
            "s",
            "--pages",
            "262144",
            "hello",
        ],
        Said {
            pages: 262_144,
            resident: 17_000,
            swap: Some(4),
            program: 7,
            ..DEFAULTS
        },
    ),
    (
        &["run", "--cap", "1", "hello"],
        Said {
            cap: 1,
            program: 3,
            ..DEFAULTS
        },
    ),
    (
        &["run", "--cap", "67108864", "hello"],
        Said {
            cap: 67_108_864,
            program: 3,
            ..DEFAULTS
        },
    ),
    (
        &["run", "--in", "a=p", "hello", "--in", "a=p"],
        Said {
            ins: &[2],
            program: 3,
            ..DEFAULTS
        },
    ),
    (
        &["run", "--in", "a=p", "--out", "a=q", "hello"],
        Said {
            ins: &[2],
            outs: &[4],
            program: 5,
            ..DEFAULTS
        },
    ),
    (
        &["run", "--out", "a=p", "--in", "b=p", "--in", "a=q", "hello"],
        Said {
            ins: &[4, 6],
            outs: &[2],
            program: 7,
            ..DEFAULTS
        },
    ),
    (
        &["run", "--in", "a==", "--in", "--in=--", "hello"],
        Said {
            ins: &[2, 4],
            program: 5,
            ..DEFAULTS
        },
    ),
    (
        &["run", "--in", "a=p=q=", "--in", "a =p", "hello"],
        Said {
            ins: &[2, 4],
            program: 5,
            ..DEFAULTS
        },
    ),
];

fn accepted() -> &'static [(Words, Said)] {
    &ACCEPTED
}

fn add(words: &mut Vec<String>, alloc: Global, texts: &[&str]) -> Result<(), AllocError> {
    for text in texts {
        words.push(String::from_str(alloc, text)?)?;
    }
    Ok(())
}

fn read(words: &[String]) -> Option<Result<Command, WordFault>> {
    if words.len() < 1000 {
        Some(read_words(words))
    } else {
        None
    }
}

fn refusal(words: &[String]) -> Option<(u32, u8)> {
    match read(words) {
        Some(Err(fault)) => Some((fault.word, fault.kind)),
        Some(Ok(_)) => None,
        None => None,
    }
}

#[test]
fn first_fault_is_the_answer(rt: HostRuntime) -> Result<(), Fail> {
    let alloc = rt.alloc();
    for (i, row) in refused().iter().chain(refused_files()).enumerate() {
        let mut words = Vec::new(alloc);
        add(&mut words, alloc, row.0)?;
        assert_eq!(rt; refusal(&words), Some((row.1, row.2)), "row {i}");
    }
    Ok(())
}

fn expect(rt: &impl Abort, words: &[String], said: &Said, i: usize) {
    match read(words) {
        Some(Ok(command)) => {
            assert_eq!(rt; command.budget, said.budget, "row {i}");
            assert_eq!(rt; command.pages, said.pages, "row {i}");
            assert_eq!(rt; command.resident, said.resident, "row {i}");
            assert_eq!(rt; command.swap, said.swap, "row {i}");
            assert_eq!(rt; command.cap, said.cap, "row {i}");
            assert_eq!(rt; command.seed, said.seed, "row {i}");
            assert_eq!(rt; command.report, said.report, "row {i}");
            assert_eq!(rt; command.env.as_slice(), said.env, "row {i}");
            assert_eq!(rt; command.ins.as_slice(), said.ins, "row {i}");
            assert_eq!(rt; command.outs.as_slice(), said.outs, "row {i}");
            assert_eq!(rt; command.program, said.program, "row {i}");
        }
        Some(Err(fault)) => assert!(rt; false, "row {i}: {} {}", fault.word, fault.kind),
        None => assert!(rt; false, "row {i}"),
    }
}

#[test]
fn words_say_a_command(rt: HostRuntime) -> Result<(), Fail> {
    let alloc = rt.alloc();
    for (i, row) in accepted().iter().enumerate() {
        let mut words = Vec::new(alloc);
        add(&mut words, alloc, row.0)?;
        expect(&rt, &words, &row.1, i);
    }
    Ok(())
}

/// So many environment texts, and words behind them.
fn texts(alloc: Global, count: usize, behind: &[&str]) -> Result<Vec<String>, AllocError> {
    let mut words = Vec::new(alloc);
    add(&mut words, alloc, &["run"])?;
    for _ in 0..count {
        add(&mut words, alloc, &["--env", "A=1"])?;
    }
    add(&mut words, alloc, behind)?;
    Ok(words)
}

#[test]
fn texts_are_sixty_four_at_most(rt: HostRuntime) -> Result<(), Fail> {
    let alloc = rt.alloc();
    for (count, behind, gives) in [
        (64, &["hello", ""], None),
        (65, &["hello", ""], Some((129, 8))),
        (64, &["--env", "A\0"], Some((129, 8))),
        (63, &["--env", "A\0"], Some((128, 12))),
        (64, &["--report", "--env"], Some((130, 8))),
        (66, &["--fast", "\0"], Some((129, 8))),
        (64, &["--seed", "07"], Some((130, 4))),
    ] {
        let words = texts(alloc, count, behind)?;
        assert_eq!(rt; refusal(&words), gives, "{count}");
    }
    let words = texts(alloc, 64, &["hello"])?;
    match read(&words) {
        Some(Ok(command)) => {
            assert_eq!(rt; command.env.len(), 64);
            assert_eq!(rt; command.env.as_slice().last(), Some(&128));
            assert_eq!(rt; command.program, 129);
        }
        Some(Err(_)) => assert!(rt; false),
        None => assert!(rt; false),
    }
    Ok(())
}

/// So many pairs of an option with names of their own, and words behind them.
fn pairs(
    alloc: Global,
    option: &str,
    count: usize,
    behind: &[&str],
) -> Result<Vec<String>, AllocError> {
    let mut words = Vec::new(alloc);
    add(&mut words, alloc, &["run"])?;
    for i in 0..count {
        add(&mut words, alloc, &[option])?;
        words.push(format!(in alloc; "{i}=p")?)?;
    }
    add(&mut words, alloc, behind)?;
    Ok(words)
}

#[test]
fn names_are_sixteen_at_most(rt: HostRuntime) -> Result<(), Fail> {
    let alloc = rt.alloc();
    for (count, behind, gives) in [
        (16, &["hello", ""], None),
        (15, &["--out", "0=q"], Some((33, 7))),
        (15, &["--out", "16=q"], Some((33, 7))),
        (16, &["--out", "3=q"], Some((35, 7))),
        (16, &["--out", "16=q"], Some((33, 8))),
        (16, &["--in", "16=q"], Some((33, 8))),
        (16, &["--in", "16=q\0"], Some((33, 8))),
        (16, &["--in", "3=q"], Some((33, 5))),
        (16, &["--in", "16="], Some((34, 6))),
        (16, &["--in", "16\0"], Some((34, 12))),
        (16, &["--report", "--in"], Some((35, 3))),
        (17, &["--fast", "\0"], Some((33, 8))),
    ] {
        let words = pairs(alloc, "--in", count, behind)?;
        assert_eq!(rt; refusal(&words), gives, "{count} {}", behind[1]);
    }
    let words = pairs(
        alloc,
        "--out",
        16,
        &["--in", "15=p", "--in", "0=p", "--in", "x=p"],
    )?;
    assert_eq!(rt; refusal(&words), Some((37, 8)));
    let words = pairs(
        alloc,
        "--out",
        16,
        &["--in", "15=p", "--in", "0=p", "hello"],
    )?;
    match read(&words) {
        Some(Ok(command)) => {
            assert_eq!(rt; command.ins.as_slice(), [34, 36].as_slice());
            assert_eq!(rt; command.outs.len(), 16);
            assert_eq!(rt; command.outs.as_slice().last(), Some(&32));
        }
        Some(Err(_)) => assert!(rt; false),
        None => assert!(rt; false),
    }
    Ok(())
}

/// `run`, a pair of `--in` whose name has so many bytes, and a program.
fn long_name(alloc: Global, count: usize) -> Result<Vec<String>, AllocError> {
    let mut words = Vec::new(alloc);
    add(&mut words, alloc, &["run", "--in"])?;
    words.push(format!(in alloc; "{}=p", "n".repeat(alloc, count)?)?)?;
    add(&mut words, alloc, &["hello"])?;
    Ok(words)
}

#[test]
fn names_have_255_bytes_at_most(rt: HostRuntime) -> Result<(), Fail> {
    let alloc = rt.alloc();
    for (count, gives) in [(1, None), (255, None), (256, Some((2, 6)))] {
        let words = long_name(alloc, count)?;
        assert_eq!(rt; refusal(&words), gives, "{count}");
    }
    Ok(())
}

#[test]
fn pairs_are_cut_at_the_first_equals_sign(rt: HostRuntime) {
    for (text, name, path) in [
        ("a=p", "a", "p"),
        ("a=p=q", "a", "p=q"),
        ("=p", "", "p"),
        ("a=", "a", ""),
        ("a", "a", ""),
        ("==", "", "="),
    ] {
        assert_eq!(rt; pair_name(text), name);
        assert_eq!(rt; pair_path(text), path);
    }
}

#[test]
fn places_are_found_by_names(rt: HostRuntime) -> Result<(), Fail> {
    let alloc = rt.alloc();
    let mut words = Vec::new(alloc);
    add(&mut words, alloc, &["run", "a=1", "b=2", "a=3", "a"])?;
    for (name, places, place) in [
        ("a", &[1, 2, 3], Some(1)),
        ("b", &[1, 2, 3], Some(2)),
        ("a", &[2, 3, 1], Some(3)),
        ("c", &[1, 2, 3], None),
        ("a=1", &[1, 2, 3], None),
    ] {
        assert_eq!(rt; place_naming(&words, name, places), place);
    }
    Ok(())
}
