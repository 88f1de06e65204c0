//! Records on a real file.

use df_disk::{Disk, DiskFailed, append, begin, file_disk, frame, take_image};
use std::fs;
use std::test::Fail;

const NAME: &str = "tests_at_the_edge_disk";

/// A record of two bytes, and another behind it.
const IMAGE: &[u8] = &[
    1, 0, 0, 0, 0, 0, 0, 0, 2, b'a', b'b', 1, 0, 0, 0, 0, 0, 0, 0, 1, b'c', 0,
];

#[test]
fn a_real_disk_keeps_records(rt: HostRuntime) -> Result<(), Fail> {
    let alloc = rt.alloc();
    let first = frame(alloc, b"ab")?;
    let second = frame(alloc, b"c")?;
    let mut disk = file_disk(&rt, NAME);
    assert_eq!(rt; begin(&mut disk), Ok(()));
    assert_eq!(rt; append(&mut disk, 0, &first), Ok(()));
    // opened again, a file is as it was
    let mut disk = file_disk(&rt, NAME);
    assert_eq!(rt; append(&mut disk, 11, &second), Ok(()));
    let image = take_image(alloc, &mut disk).ok().ok_or("an image")?;
    assert_eq!(rt; image.as_slice(), IMAGE);
    fs::remove_file(&rt, NAME)?;
    Ok(())
}

#[test]
fn a_disk_in_no_folder_fails(rt: HostRuntime) {
    let mut disk = file_disk(&rt, "no such folder/file");
    assert_eq!(rt; disk.size(), Err(DiskFailed));
    assert_eq!(rt; disk.read_at(0, &mut [0; 4]), Err(DiskFailed));
    assert_eq!(rt; disk.write_at(0, b"a"), Err(DiskFailed));
    assert_eq!(rt; disk.sync(), Err(DiskFailed));
}
