// A program's files: where its input comes from, a read of it, and what it writes. Which bytes come in or go out no contract
// can say, since those of the system's calls do not; these say which answer is given when, and every other byte of what is
// lent.
#![tactic(auto)]

ghost use Rattle.std.specs.Prelude.{◌≡◌, true, [], ◌+◌, ◌-◌, ◌≤◌, length, take, drop};
ghost use Rattle.wire.specs.Bytes.{part};
ghost use Rattle.files.specs.Reading.{Brought, came_in};
ghost use Rattle.files.specs.Sources.{SourceWithin, Opens, source_of};
ghost use Rattle.files.specs.declared.Source.TheVariants.{Missing};

use std::env::FillError;
use std::fs::File;
use std::io::{Error, ErrorKind, Read};
use std::rt::{Env, Files};

// The bytes of the longest name of a file, with the 0 that ends it.
const PATH: usize = 4096;

// The most that one read brings.
const CHUNK: usize = 65536;

// The system's number for a name that is too long.
const NAME_TOO_LONG: i32 = 36;

// Where a program's input comes from.
#[derive(Drop)]
pub enum Source {
    StandardInput,
    // The file that the first argument names, in so many bytes.
    File { file: File, length: usize },
    // It cannot be opened, and that was said.
    Missing,
}

// An enum cannot hold an array, so the file's name stands beside it, at the start of `path`.
#[derive(Drop)]
pub struct Input {
    pub source: Source,
    pub path: [u8; PATH],
}

// What one read brought.
#[derive(Drop)]
pub enum Came {
    // So many bytes more, and at least one.
    More(usize),
    // The file ends here, or the buffer is full.
    Nothing,
    Failed(Error),
}

// The file that the program's first argument names, or standard input with no argument.
pub fn open_input(rt: &(impl Env + Files<File = File> + Eprint)) -> Input
    ensures { Opens result }
{
    let mut path = [0u8; PATH];
    match rt.arg(1, &mut path) {
        Ok(length) => {
            let source = open_file(rt, &path[..length]);
            Input { source, path }
        }
        Err(FillError::NotPresent) => Input {
            source: Source::StandardInput,
            path,
        },
        Err(FillError::TooLong) => Input {
            source: missing(
                rt,
                b"the first argument",
                Error::from_raw_os_error(NAME_TOO_LONG),
            ),
            path,
        },
    }
}

// std opens no file whose name is not UTF-8.
fn open_file(rt: &(impl Files<File = File> + Eprint), name: &[u8]) -> Source
    ensures { SourceWithin (length name.now) result }
{
    let opened = match str::from_utf8(name) {
        Ok(path) => File::open(rt, path),
        Err(_) => Err(Error::new(ErrorKind::InvalidFilename, "file name is not UTF-8")),
    };
    source_of(rt, name, opened)
}

fn source_of(rt: &impl Eprint, name: &[u8], opened: Result<File, Error>) -> Source
    ensures { result ≡ source_of opened (length name.now) }
{
    match opened {
        Ok(file) => Source::File {
            file,
            length: name.len(),
        },
        Err(error) => missing(rt, name, error),
    }
}

// Says why a file is missing.
fn missing(rt: &impl Eprint, name: &[u8], error: Error) -> Source
    ensures { result ≡ Missing }
{
    fail(rt, name, error);
    Source::Missing
}

// Writes a line to standard error: what failed, as the caller names it, a colon and why. A name that is not UTF-8 is called the
// first argument. Whether that can be written is of no account.
pub fn fail(rt: &impl Eprint, what: &[u8], error: Error) {
    let name = match str::from_utf8(what) {
        Ok(text) => text,
        Err(_) => "the first argument",
    };
    let _ = rt.eprintln(format_args!("{name}: {error}"));
}

// Reads once, behind what is filled already, by way of a buffer of its own: a read may change what lies behind the bytes
// that it brings.
pub fn fill(from: &mut impl Read, buffer: &mut [u8], filled: usize) -> Came
    ensures brought { Brought filled (length buffer.old) result }
    ensures buffer_unchanged { take filled buffer.new ≡ take filled buffer.old }
    ensures buffer_unchanged_2 { drop (filled + came_in result) buffer.new ≡ drop (filled + came_in result) buffer.old }
    ensures buffer_len_unchanged { length buffer.new ≡ length buffer.old }
{
    let mut space = [0u8; CHUNK];
    let chunk: &mut [u8] = &mut space;
    let room = room_behind(filled, buffer.len(), chunk.len());
    match read_once(from, &mut chunk[..room]) {
        Came::More(n) => {
            put_front(buffer, filled, chunk, n);
            Came::More(n)
        }
        Came::Nothing => Came::Nothing,
        Came::Failed(error) => Came::Failed(error),
    }
}

// The first `n` bytes of the chunk.
fn put_front(buffer: &mut [u8], at: usize, chunk: &[u8], n: usize)
    ensures buffer_unchanged { take at buffer.new ≡ take at buffer.old }
    ensures buffer_unchanged_2 { drop (at + n) buffer.new ≡ drop (at + n) buffer.old }
{
    wire::put_run(buffer, at, wire::part(chunk, 0, n));
}

// How many bytes a read may bring: they have to fit behind what is filled, and into the chunk by which they come.
fn room_behind(filled: usize, len: usize, chunk: usize) -> usize
    ensures { (result ≤ len - filled) × (result ≤ chunk) }
{
    if len <= filled {
        return 0;
    }
    wire::least(len - filled, chunk)
}

fn read_once(from: &mut impl Read, chunk: &mut [u8]) -> Came
    ensures { Brought 0 (length chunk.old) result }
{
    if chunk.len() == 0 {
        return Came::Nothing;
    }
    match from.read(chunk) {
        Ok(0) => Came::Nothing,
        Ok(n) => Came::More(n),
        Err(error) => Came::Failed(error),
    }
}

// Writes the first `made` bytes to standard output, and answers whether that went well; where it did not, that was said.
// With nothing to write nothing can go wrong.
pub fn flush(rt: &(impl Print + Eprint), output: &[u8], made: usize) -> bool
    ensures { part output.now 0 made ≡ [] → result ≡ true }
{
    let bytes = wire::part(output, 0, made);
    if bytes.len() == 0 {
        return true;
    }
    match rt.write_all(bytes) {
        Ok(()) => true,
        Err(error) => {
            fail(rt, b"standard output", error);
            false
        }
    }
}
