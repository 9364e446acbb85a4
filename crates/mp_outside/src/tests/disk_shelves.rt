use super::fetch;
use crate::disk_shelves::bytes_within;
use crate::{DiskShelf, Shelf, ShelfAnswer};
use std::fs::{File, Permissions};
use std::io::Read;
use std::os::unix::fs::PermissionsExt;
use std::process::Abort;
use std::{env, fs, io};

// Each test has files of its own, in the working folder.
fn expect_bytes<R: Abort + AllocGlobal, H: Shelf>(
    rt: &R,
    shelf: &mut H,
    name: &[u8],
    limit: u64,
    bytes: &[u8],
) {
    let found = fetch(rt.alloc(), shelf, name, limit).expect(rt, "there is a file");
    assert_eq!(rt; found.as_slice(), bytes);
}

fn expect_answer<R: Abort + AllocGlobal, H: Shelf>(
    rt: &R,
    shelf: &mut H,
    name: &[u8],
    limit: u64,
    answer: ShelfAnswer,
) {
    assert_eq!(rt; fetch(rt.alloc(), shelf, name, limit).err(), Some(answer));
}

#[test]
fn a_shelf_on_disk_gives_its_files(rt: HostRuntime) {
    let mut shelf = DiskShelf::new(&rt).expect(&rt, "memory is short");
    let folder = env::current_dir(&rt).expect(&rt, "there is a folder");
    let path = folder
        .join(rt.alloc(), "small.csv")
        .expect(&rt, "memory is short");
    assert!(rt; fs::write(&rt, "small.csv", "1,2\n").is_ok());
    expect_bytes(&rt, &mut shelf, b"small.csv", 4, b"1,2\n");
    expect_bytes(&rt, &mut shelf, path.as_str().as_bytes(), 4, b"1,2\n");
    expect_answer(&rt, &mut shelf, b"small.csv", 3, ShelfAnswer::TooLarge);
    assert!(rt; fs::write(&rt, "small.csv", "").is_ok());
    expect_bytes(&rt, &mut shelf, b"small.csv", 0, b"");
    assert!(rt; fs::remove_file(&rt, "small.csv").is_ok());
    expect_answer(&rt, &mut shelf, b"small.csv", 4, ShelfAnswer::Absent);
}

// Whether a file can be made that may not be read. The system's own user may read every file.
fn is_locked(rt: &HostRuntime, name: &str) -> bool {
    fs::write(rt, name, "1").is_ok()
        && fs::set_permissions(rt, name, Permissions::from_mode(0)).is_ok()
        && File::open(rt, name).is_err()
}

#[test]
fn a_shelf_on_disk_tells_what_is_absent_from_what_failed(rt: HostRuntime) {
    let mut shelf = DiskShelf::new(&rt).expect(&rt, "memory is short");
    let long = vec![in rt.alloc(); b'a'; 5000].expect(&rt, "memory is short");
    if is_locked(&rt, "locked.csv") {
        expect_answer(&rt, &mut shelf, b"locked.csv", 4, ShelfAnswer::Failed);
    }
    for (name, answer) in [
        (b"locked.csv/below".as_slice(), ShelfAnswer::Failed),
        (b"\xff".as_slice(), ShelfAnswer::Absent),
        (b".".as_slice(), ShelfAnswer::Failed),
        (b"a\0b".as_slice(), ShelfAnswer::Failed),
        (long.as_slice(), ShelfAnswer::Failed),
    ] {
        expect_answer(&rt, &mut shelf, name, 4, answer);
    }
    assert!(rt; fs::remove_file(&rt, "locked.csv").is_ok());
}

// A reader that counts the bytes that it gives.
#[derive(Drop)]
struct Counted<F> {
    file: F,
    given: usize,
}

impl<F: Read> Read for Counted<F> {
    fn read(&mut self, buf: &mut [u8]) -> io::Result<usize> {
        let count = self.file.read(buf)?;
        self.given = self.given.saturating_add(count);
        Ok(count)
    }
}

// Expects that a file of 200,000 bytes is read up to one byte past each limit, and then to its end.
fn expect_limits<R: Abort + AllocGlobal, F: Read>(rt: &R, counted: &mut Counted<F>) {
    for (limit, given) in [(10, 11), (150_000, 150_012)] {
        let answer = bytes_within(rt.alloc(), counted, limit);
        assert_eq!(rt; answer.err(), Some(ShelfAnswer::TooLarge));
        assert_eq!(rt; counted.given, given);
    }
    let rest = bytes_within(rt.alloc(), counted, 49_988).expect(rt, "the file is there");
    assert_eq!(rt; (rest.len(), counted.given), (49_988, 200_000));
}

#[test]
fn no_more_of_a_file_is_read_than_a_byte_past_the_limit(rt: HostRuntime) {
    let bytes = vec![in rt.alloc(); b'1'; 200_000].expect(&rt, "memory is short");
    assert!(rt; fs::write(&rt, "large.csv", bytes.as_slice()).is_ok());
    let mut shelf = DiskShelf::new(&rt).expect(&rt, "memory is short");
    expect_answer(&rt, &mut shelf, b"large.csv", 10, ShelfAnswer::TooLarge);
    let mut counted = Counted {
        file: File::open(&rt, "large.csv").expect(&rt, "the file is there"),
        given: 0,
    };
    expect_limits(&rt, &mut counted);
    assert!(rt; fs::remove_file(&rt, "large.csv").is_ok());
}
