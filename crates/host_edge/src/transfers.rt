// Loops over the reads and writes of std, each of which may move only a part.
ghost use Rattle.std.specs.Prelude.{◌≡◌, ◌+◌, ◌*◌, ◌≤◌, IfOk, IfSome, OnOk, drop, length};
ghost use Rattle.std.specs.Io.KnownBytes.{Consumes, Keeps, ReadConsumes};
ghost use Rattle.std.specs.Io.Seek.{MovesTo};
ghost use Rattle.host_edge.specs.Files.{Loads, page_len};
ghost use Rattle.host_edge.specs.Moves.{Reads, ReadsAt, Writes, WritesAt};

use crate::PAGE_LEN;
use std::io::{self, Read, Seek, SeekFrom, Write};

/// Reads once, at most a page, to the front of a buffer whose rest stays, and answers how many bytes came, 0 only at the
/// end or where the buffer is empty.
pub fn read_part<R: Read>(reader: &mut R, into: &mut [u8]) -> io::Result<usize>
    ensures fits { IfOk result (λ count. count ≤ length into.old) }
    ensures rest { IfOk result (λ count. drop count into.new ≡ drop count into.old) }
    ensures bytes { ReadConsumes (R.remaining reader.old) (R.remaining reader.new) result into.new }
{
    let mut part = [0; PAGE_LEN];
    let most = into.len().min(PAGE_LEN);
    let count = reader.read(&mut part[..most])?;
    into[..count].copy_from_slice(&part[..count]);
    Ok(count)
}

/// Reads to the front of a buffer, whose rest stays, until it is full or the reader ends, and answers how many bytes came.
pub fn read_front<R: Read>(reader: &mut R, into: &mut [u8]) -> io::Result<usize>
    ensures fits { IfOk result (λ count. count ≤ length into.old) }
    ensures rest { IfOk result (λ count. drop count into.new ≡ drop count into.old) }
    ensures bytes { Reads (R.remaining reader.old) (R.remaining reader.new) into.new result }
{
    let mut count = 0;
    while count < into.len() {
        let more = read_part(reader, &mut into[count..])?;
        if more == 0 {
            break;
        }
        count += more;
    }
    Ok(count)
}

/// Reads a whole file to the front of a buffer, whose rest stays, and answers its length, or one more than the buffer's
/// where the file is longer.
pub fn read_file<R: Read>(reader: &mut R, into: &mut [u8]) -> io::Result<u64>
    ensures fits { IfOk result (λ len. len ≤ length into.old + 1) }
    ensures rest { IfOk result (λ len. drop len into.new ≡ drop len into.old) }
    ensures loads { IfOk result (λ len. IfSome (R.remaining reader.old)
        (λ file. Loads file into.old into.new len)) }
{
    let count = read_front(reader, into)?;
    if count < into.len() {
        return Ok(count as u64);
    }
    let mut more = [0];
    let behind = reader.read(&mut more)?;
    Ok(count as u64 + behind as u64)
}

/// Reads a buffer full. A reader that ends before is an error.
pub fn fill<R: Read>(reader: &mut R, into: &mut [u8]) -> io::Result<()>
    ensures { OnOk result (Consumes (R.remaining reader.old) (R.remaining reader.new) into.new) }
{
    let count = read_front(reader, into)?;
    if count < into.len() {
        return Err(io::ErrorKind::UnexpectedEof.into());
    }
    Ok(())
}

/// Writes all the bytes and flushes the writer. A write that takes none of them is an error, and an error leaves a prefix
/// written.
pub fn write_whole<W: Write>(writer: &mut W, bytes: &[u8]) -> io::Result<()>
    ensures { Writes (W.contents writer.old) (W.contents writer.new) bytes.now result }
{
    let mut rest = bytes;
    while !rest.is_empty() {
        match writer.write(rest) {
            Ok(0) => return Err(io::ErrorKind::WriteZero.into()),
            Ok(count) => rest = &rest[count..],
            Err(error) => return Err(error),
        }
    }
    writer.flush()
}

/// Goes to where a page starts.
fn seek_page<F: Seek>(file: &mut F, page: u32) -> io::Result<u64>
    ensures moves { MovesTo (F.stream_position file.old) (F.stream_position file.new) (page * page_len) result }
    ensures kept { Keeps (F.stream_bytes file.old) (F.stream_bytes file.new) }
{
    file.seek(SeekFrom::Start(u64::from(page) * PAGE_LEN as u64))
}

/// Reads a page of a file.
pub fn read_page<F: Read + Seek>(file: &mut F, page: u32, into: &mut [u8]) -> io::Result<()>
    ensures { OnOk result (ReadsAt F.stream_position F.stream_bytes F.remaining
        file.old file.new (page * page_len) into.new) }
{
    match seek_page(file, page) {
        Ok(_) => fill(file, into),
        Err(error) => Err(error),
    }
}

/// Writes a page of a file.
pub fn write_page<F: Write + Seek>(file: &mut F, page: u32, from: &[u8]) -> io::Result<()>
    ensures { OnOk result (WritesAt F.stream_position F.stream_bytes F.contents
        file.old file.new (page * page_len) from.now) }
{
    match seek_page(file, page) {
        Ok(_) => write_whole(file, from),
        Err(error) => Err(error),
    }
}
