//! How much memory the program uses, and how much it may use.

use qap_io::Counted;
use qap_text::read_all;
use std::fs::{self, Files};

/// Where Linux reports how many pages of memory the program has: how many in all, how many of them are there, and
/// others (proc(5)).
const OWN: &str = "/proc/self/statm";

/// Where it reports how much memory is available on the machine (proc(5)).
const MACHINE: &str = "/proc/meminfo";

/// Where it reports the limit of a control group of version 2, if the program is in one that has a limit.
const GROUP: &str = "/sys/fs/cgroup/memory.max";

/// The bytes of a page on the processors that the program is built for.
const PAGE_BYTES: u64 = 4096;

/// More than these texts have.
const LIMIT: usize = 65_536;

/// How many bytes of memory the program uses now, if the system reports it.
pub fn resident_bytes<R: Files + AllocGlobal>(rt: &R) -> Option<u64> {
    let pages = resident_pages(&bytes_of(rt, OWN)?)?;
    Some(pages.saturating_mul(PAGE_BYTES))
}

/// How many bytes it may use if no limit is given: three quarters of what is available, if the system reports it.
pub fn usable_bytes<R: Files + AllocGlobal>(rt: &R) -> Option<u64> {
    let free = available_kilobytes(&bytes_of(rt, MACHINE)?)?.saturating_mul(1024);
    let most = match bytes_of(rt, GROUP) {
        Some(text) => first_number(&text).unwrap_or(u64::MAX),
        None => u64::MAX,
    };
    let bytes = free.min(most);
    Some(bytes - bytes / 4)
}

/// The bytes of a file.
fn bytes_of<R: Files + AllocGlobal>(rt: &R, name: &str) -> Option<Vec<u8>> {
    let file = fs::open(rt, name).ok()?;
    read_all(rt.alloc(), &mut Counted::new(file), LIMIT).ok()
}

/// How many pages are there, by such a text.
fn resident_pages(text: &[u8]) -> Option<u64> {
    let text = std::str::from_utf8(text).ok()?;
    text.split_whitespace().nth(1)?.parse().ok()
}

/// The number with which a text begins.
fn first_number(text: &[u8]) -> Option<u64> {
    let text = std::str::from_utf8(text).ok()?;
    text.split_whitespace().next()?.parse().ok()
}

/// How many kilobytes are available, by such a text.
fn available_kilobytes(text: &[u8]) -> Option<u64> {
    let text = std::str::from_utf8(text).ok()?;
    let mut words = text.split_whitespace();
    for word in words.by_ref() {
        if word == "MemAvailable:" {
            break;
        }
    }
    words.next()?.parse().ok()
}
