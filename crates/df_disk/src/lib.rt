//! Disks, and records on them that outlive a crash.
#![tactic(auto)]

mod disk;
mod image;
mod memory_disk;
mod real;
mod records;

pub use disk::{Disk, DiskFailed};
pub use image::{NotTaken, take_image};
pub use memory_disk::MemoryDisk;
pub use real::{FileDisk, file_disk};
pub use records::{Found, append, begin, found_at, frame};
