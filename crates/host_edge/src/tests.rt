// What the contracts leave open: that calls succeed, and what files of the system give back.
ghost use Rattle.std.specs.Prelude.{◌≡◌, ◌<◌, IfOk, IsTrue, OnOk, length, map, vec_len};
ghost use Rattle.host_edge.specs.Files.{page_len};
ghost use Rattle.host_edge.specs.NamedFiles.{fits_in, named};

use crate::bytes::zeros;
use crate::transfers::{fill, read_file, read_page, write_page};
use crate::{
    Failed, FileHost, FileSink, FileSource, Host, MemHost, MemSink, MemSource, PAGE_LEN, Sink,
    Source,
};
use std::alloc::{AllocError, Global};
use std::fs::{self, File};
use std::io::{Cursor, Read, Write};
use std::test::Fail;
use std::{env, io, process};

#[test]
fn a_source_gives_its_bytes_but_where_a_call_is_listed(rt: HostRuntime) -> Result<(), Fail> {
    let mut source = MemSource::new(rt.alloc(), b"abcdef", 4, &[2])?;
    for (room, want, given) in [
        (3, Ok(3), b"abc."),
        (3, Err(Failed), b"...."),
        (4, Ok(3), b"def."),
        (4, Ok(0), b"...."),
    ] {
        let mut into = *b"....";
        assert_eq!(rt; source.take(&mut into[..room]), want);
        assert_eq!(rt; &into, given);
    }
    Ok(())
}

#[test]
fn a_sink_keeps_what_is_put_and_a_part_where_a_call_is_listed(rt: HostRuntime) -> Result<(), Fail> {
    let mut sink = MemSink::new(rt.alloc(), 8, &[(2, 1), (2, 5), (3, 1), (4, 9)])?;
    for (bytes, want, held) in [
        ("abc", Ok(()), "abc"),
        ("de", Err(Failed), "abcd"),
        ("efghi", Err(Failed), "abcd"),
        ("ef", Err(Failed), "abcdef"),
        ("ghi", Err(Failed), "abcdef"),
        ("gh", Ok(()), "abcdefgh"),
    ] {
        assert_eq!(rt; sink.put(bytes.as_bytes()), want, "at {bytes}");
        assert_eq!(rt; sink.bytes(), held.as_bytes(), "after {bytes}");
    }
    Ok(())
}

// A file of a host, as it is made with.
fn file(alloc: Global, path: &str, bytes: &[u8]) -> Result<(String, Vec<u8>), AllocError>
    ensures { IfOk result (λ file. named file ≡ record { path = path.now; bytes = bytes.now }) }
{
    Ok((
        String::from_str(alloc, path)?,
        Vec::from_slice(alloc, bytes)?,
    ))
}

// A page of one byte all over.
fn page_of(alloc: Global, byte: u8) -> Result<Vec<u8>, AllocError>
    ensures { IfOk result (λ page. vec_len page ≡ page_len) }
{
    let mut page = zeros(alloc, PAGE_LEN)?;
    for place in page.iter_mut() {
        *place = byte;
    }
    Ok(page)
}

// A host in memory, of which the test knows no more than that it is made.
fn host_of(
    alloc: Global,
    files: Vec<(String, Vec<u8>)>,
    room: usize,
    pages: u32,
    fail: &[u64],
) -> Result<MemHost, AllocError>
    requires { IsTrue (fits_in room (map named files.items)) }
{
    MemHost::new(alloc, files, room, pages, fail)
}

// The calls through the bound alone, with no more facts than a caller has who knows no host.
fn load<H: Host>(host: &mut H, path: &str, into: &mut [u8]) -> Result<u64, Failed> {
    host.load(path, into)
}

// It answers how many bytes were stored, as `load` does.
fn store<H: Host>(host: &mut H, path: &str, bytes: &[u8]) -> Result<u64, Failed> {
    host.store(path, bytes)?;
    Ok(bytes.len() as u64)
}

fn open<H: Host>(host: &mut H, path: &str) -> Result<(), Failed>
    ensures { OnOk result (H.opened host.new ≡ 2) }
{
    host.swap_open(path, 2)
}

fn put<H: Host>(host: &mut H, page: u32, from: &[u8]) -> Result<(), Failed>
    requires is_opened { page < H.opened host.old }
    requires is_page { length from.now ≡ page_len }
    ensures { H.opened host.new ≡ H.opened host.old }
{
    host.swap_put(page, from)
}

fn get<H: Host>(host: &mut H, page: u32, into: &mut [u8]) -> Result<(), Failed>
    requires is_opened { page < H.opened host.old }
    requires is_page { length into.old ≡ page_len }
    ensures { H.opened host.new ≡ H.opened host.old }
{
    host.swap_get(page, into)
}

#[test]
fn a_host_loads_and_stores_but_where_a_call_is_listed_or_passes_the_room(
    rt: HostRuntime,
) -> Result<(), Fail> {
    let alloc = rt.alloc();
    let files = vec![in alloc; file(alloc, "a", b"xyz")?, file(alloc, "b", b"")?]?;
    let mut host = host_of(alloc, files, 8, 1, &[1, 3])?;
    let mut into = *b"....";
    for (stores, path, bytes, want) in [
        (false, "a", "", Err(Failed)),
        (false, "a", "", Ok(3)),
        (true, "b", "1", Err(Failed)),
        (false, "b", "", Ok(0)),
        (false, "c", "", Err(Failed)),
        (true, "b", "1234", Err(Failed)),
        (false, "b", "", Ok(0)),
        (true, "a", "123456", Ok(6)),
        (false, "a", "", Ok(5)),
        (false, "b", "", Ok(0)),
    ] {
        let done = if stores {
            store(&mut host, path, bytes.as_bytes())
        } else {
            load(&mut host, path, &mut into)
        };
        assert_eq!(rt; done, want, "{path} {bytes}");
    }
    assert_eq!(rt; &into, b"1234");
    Ok(())
}

#[test]
fn a_sixty_fifth_file_is_refused(rt: HostRuntime) -> Result<(), Fail> {
    let alloc = rt.alloc();
    let mut host = host_of(alloc, Vec::new(alloc), 1000, 1, &[])?;
    for number in 0..64u8 {
        let path = format!(in alloc; "{number}")?;
        assert_eq!(rt; store(&mut host, &path, &[number]), Ok(1));
    }
    assert_eq!(rt; store(&mut host, "64", b""), Err(Failed));
    assert_eq!(rt; store(&mut host, "17", b"new"), Ok(3));
    let mut into = *b"....";
    assert_eq!(rt; load(&mut host, "16", &mut into), Ok(1));
    assert_eq!(rt; into[0], 16);
    Ok(())
}

#[test]
fn a_swap_gives_its_page_back_but_where_a_call_is_listed(rt: HostRuntime) -> Result<(), Fail> {
    let alloc = rt.alloc();
    let mut host = host_of(alloc, Vec::new(alloc), 0, 2, &[1, 3, 5])?;
    let page = page_of(alloc, 7)?;
    let mut back = page_of(alloc, 0)?;
    assert_eq!(rt; host.swap_open("s", 2), Err(Failed));
    open(&mut host, "s")?;
    assert_eq!(rt; put(&mut host, 1, &page), Err(Failed));
    put(&mut host, 1, &page)?;
    assert_eq!(rt; get(&mut host, 1, &mut back), Err(Failed));
    get(&mut host, 1, &mut back)?;
    assert_eq!(rt; back.as_slice(), page.as_slice());
    Ok(())
}

// A path of this process's own among the temporary files.
fn own_path(rt: &HostRuntime, name: &str) -> io::Result<String> {
    let folder = env::temp_dir(rt)?;
    let id = process::id(rt.process());
    Ok(format!(in rt.alloc(); "{}/host_edge_{id}_{name}", folder.as_str())?)
}

#[test]
fn a_host_over_files_loads_what_it_stored(rt: HostRuntime) -> Result<(), Fail> {
    let path = own_path(&rt, "file")?;
    let mut host = FileHost::new(&rt);
    let mut into = *b"......";
    for (stores, bytes, room, want, front) in [
        (false, "", 6, Err(Failed), b"......"),
        (true, "hello\n", 6, Ok(6), b"......"),
        (false, "", 5, Ok(6), b"hello."),
        (true, "abc", 6, Ok(3), b"hello."),
        (false, "", 6, Ok(3), b"abclo."),
    ] {
        let done = if stores {
            store(&mut host, &path, bytes.as_bytes())
        } else {
            load(&mut host, &path, &mut into[..room])
        };
        assert_eq!(rt; done, want, "{bytes} {room}");
        assert_eq!(rt; &into, front);
    }
    fs::remove_file(&rt, &path)?;
    Ok(())
}

#[test]
fn a_swap_over_a_file_gives_its_pages_back(rt: HostRuntime) -> Result<(), Fail> {
    let path = own_path(&rt, "swap")?;
    let mut host = FileHost::new(&rt);
    let (first, last) = (page_of(rt.alloc(), 1)?, page_of(rt.alloc(), 3)?);
    let mut back = page_of(rt.alloc(), 0)?;
    open(&mut host, &path)?;
    put(&mut host, 1, &last)?;
    put(&mut host, 0, &first)?;
    get(&mut host, 1, &mut back)?;
    assert_eq!(rt; back.as_slice(), last.as_slice());
    get(&mut host, 0, &mut back)?;
    assert_eq!(rt; back.as_slice(), first.as_slice());
    fs::remove_file(&rt, &path)?;
    Ok(())
}

// A reader of six bytes that gives at most so many a call, and fails at the call with this number.
#[derive(Drop)]
struct Slow {
    at: usize,
    most: usize,
    calls: u64,
    fails_at: u64,
}

impl Read for Slow {
    fn read(&mut self, into: &mut [u8]) -> io::Result<usize> {
        self.calls = self.calls.saturating_add(1);
        if self.calls == self.fails_at {
            return Err(io::ErrorKind::Other.into());
        }
        let text = b"abcdef";
        let left = &text[self.at.min(text.len())..];
        let count = left.len().min(self.most).min(into.len());
        into[..count].copy_from_slice(&left[..count]);
        self.at = self.at.saturating_add(count);
        Ok(count)
    }
}

fn slow_reader(most: usize, fails_at: u64) -> Slow {
    Slow {
        at: 0,
        most,
        calls: 0,
        fails_at,
    }
}

#[test]
fn a_file_is_read_whole_from_parts(rt: HostRuntime) -> Result<(), Fail> {
    for (room, most, fails_at, want, front) in [
        (8, 6, 0, Ok(6), b"abcdef.."),
        (6, 2, 0, Ok(6), b"abcdef.."),
        (4, 3, 0, Ok(5), b"abcd...."),
        (8, 0, 0, Ok(0), b"........"),
        (8, 2, 2, Err(io::ErrorKind::Other), b"ab......"),
        (6, 6, 2, Err(io::ErrorKind::Other), b"abcdef.."),
    ] {
        let mut into = *b"........";
        let done = read_file(&mut slow_reader(most, fails_at), &mut into[..room]);
        assert_eq!(rt;
            done.map_err(|error| error.kind()),
            want,
            "{room} {most} {fails_at}"
        );
        assert_eq!(rt; &into, front);
    }
    Ok(())
}

#[test]
fn a_buffer_is_filled_from_parts_or_not_at_all(rt: HostRuntime) -> Result<(), Fail> {
    for (room, fails_at, want) in [
        (6, 0, Ok(())),
        (4, 2, Err(io::ErrorKind::Other)),
        (7, 0, Err(io::ErrorKind::UnexpectedEof)),
    ] {
        let mut into = *b"........";
        let done = fill(&mut slow_reader(3, fails_at), &mut into[..room]);
        assert_eq!(rt; done.map_err(|error| error.kind()), want, "{room}");
    }
    Ok(())
}

#[test]
fn pages_lie_one_behind_the_other(rt: HostRuntime) -> Result<(), Fail> {
    let alloc = rt.alloc();
    let mut file = Cursor::new(zeros(alloc, 2 * PAGE_LEN + 100)?);
    let page = page_of(alloc, 5)?;
    let mut back = page_of(alloc, 9)?;
    write_page(&mut file, 1, &page)?;
    read_page(&mut file, 0, back.as_mut_slice())?;
    assert_eq!(rt; back.as_slice(), zeros(alloc, PAGE_LEN)?.as_slice());
    read_page(&mut file, 1, back.as_mut_slice())?;
    assert_eq!(rt; back.as_slice(), page.as_slice());
    let cut = read_page(&mut file, 2, back.as_mut_slice());
    assert_eq!(rt;
        cut.map_err(|error| error.kind()),
        Err(io::ErrorKind::UnexpectedEof)
    );
    Ok(())
}

// A writer that takes two bytes at once, up to its room.
#[derive(Drop)]
struct Narrow {
    room: usize,
}

impl Write for Narrow {
    fn write(&mut self, bytes: &[u8]) -> io::Result<usize> {
        let count = bytes.len().min(2).min(self.room);
        self.room -= count;
        Ok(count)
    }

    fn flush(&mut self) -> io::Result<()> {
        Ok(())
    }
}

// A writer that takes all bytes, and can't hand them on.
#[derive(Drop)]
struct Stuck;

impl Write for Stuck {
    fn write(&mut self, bytes: &[u8]) -> io::Result<usize> {
        Ok(bytes.len())
    }

    fn flush(&mut self) -> io::Result<()> {
        Err(io::ErrorKind::Other.into())
    }
}

#[test]
fn a_flush_that_fails_is_a_failure(rt: HostRuntime) -> Result<(), Fail> {
    assert_eq!(rt; FileSink::new(Stuck).put(b"abc"), Err(Failed));
    Ok(())
}

#[test]
fn streams_over_files_move_bytes_in_parts(rt: HostRuntime) -> Result<(), Fail> {
    let path = own_path(&rt, "stream")?;
    let mut sink = FileSink::new(File::create(&rt, path.as_str())?);
    assert_eq!(rt; sink.put(b"abc"), Ok(()));
    assert_eq!(rt; sink.put(b"de"), Ok(()));
    let mut source = FileSource::new(File::open(&rt, path.as_str())?);
    let mut into = *b"....";
    assert_eq!(rt; source.take(&mut into), Ok(4));
    assert_eq!(rt; &into, b"abcd");
    assert_eq!(rt; source.take(&mut into), Ok(1));
    assert_eq!(rt; &into, b"ebcd");
    assert_eq!(rt; source.take(&mut into), Ok(0));
    fs::remove_file(&rt, path.as_str())?;
    let mut narrow = FileSink::new(Narrow { room: 5 });
    assert_eq!(rt; narrow.put(b"abc"), Ok(()));
    assert_eq!(rt;
        narrow.put(b"def"),
        Err(Failed),
        "a write that takes nothing"
    );
    Ok(())
}
