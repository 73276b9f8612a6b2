//! Who holds the lock of a working copy, as Mercurial's own lock tells it: the host, the namespace of its processes, and the process.

use crate::failure::{Reason, push_bytes};
use crate::writing::look;
use std::alloc::{AllocError, Global};
use std::os::unix::fs::MetadataExt;
use std::rt::Files;
use std::{format, fs, process};

// Where the system tells the host's name, with a line feed behind it.
const HOST: &str = "/proc/sys/kernel/hostname";

// What the system names the namespace by in which a process has its number.
const NAMESPACE: &str = "/proc/self/ns/pid";

// The first process of a namespace: who sees it sees all.
const FIRST: &str = "/proc/1";

/// A system that knows which process it runs.
pub trait ProcessId {
    /// The number of this process in its own namespace.
    fn process_id(&self) -> u32;
}

impl ProcessId for HostRuntime {
    fn process_id(&self) -> u32 {
        process::id(self.process())
    }
}

/// This process as `HOST/NAMESPACE:PROCESS`, where the namespace is the hexadecimal number of its inode and is left out where the system
/// has none. A space behind it, which counts for nothing behind a number, tells our lock from a regular file of Mercurial's. It is
/// empty where the host's name can't be read.
pub(crate) fn holder<R: Files + AllocGlobal + ProcessId>(rt: &R) -> Result<String, Reason> {
    let Some(host) = host(rt)? else {
        return Ok(String::new(rt.alloc()));
    };
    let host = host.as_str();
    let told = match fs::metadata(rt, NAMESPACE) {
        Ok(namespace) => {
            format!(in rt.alloc(); "{host}/{:x}:{} ", namespace.ino(), rt.process_id())
        }
        Err(_) => format!(in rt.alloc(); "{host}:{} ", rt.process_id()),
    };
    enough(told)
}

// The host's name, where it can be read.
fn host<R: Files + AllocGlobal>(rt: &R) -> Result<Option<String>, Reason> {
    let Ok(text) = fs::read(rt, HOST) else {
        return Ok(None);
    };
    match str::from_utf8(text.as_slice()) {
        Ok(host) => Ok(Some(enough(String::from_str(rt.alloc(), host.trim_end_matches('\n')))?)),
        Err(_) => Ok(None),
    }
}

/// Want of memory is a failure of the shelf, whose calls have no other.
pub(crate) fn enough(text: Result<String, AllocError>) -> Result<String, Reason> {
    match text {
        Ok(text) => Ok(text),
        Err(_) => Err(Reason::Words("out of memory")),
    }
}

// The host that a lock's text names: all before its namespace or process.
fn host_in(told: &[u8]) -> &[u8] {
    told.split(|byte| *byte == b'/' || *byte == b':')
        .next()
        .unwrap_or(told)
}

/// Whether a lock's text names another host than one's own. A text that names none doesn't.
pub(crate) fn is_elsewhere(own: &str, told: &[u8]) -> bool {
    let host = host_in(told.trim_ascii());
    !host.is_empty() && host != host_in(own.as_bytes())
}

/// What is said of a lock of another host: who has it, and what is to be done where nobody has it any more.
pub(crate) fn held_by(alloc: Global, name: &str, told: &[u8]) -> Result<String, Reason> {
    enough(held_text(alloc, name, host_in(told.trim_ascii())))
}

fn held_text(alloc: Global, name: &str, host: &[u8]) -> Result<String, AllocError> {
    let mut text = String::from_str(alloc, ".hg/")?;
    text.push_str(name)?;
    text.push_str(" is held by ")?;
    push_bytes(&mut text, host)?;
    text.push_str(": remove it where no process there has it any more")?;
    Ok(text)
}

/// Whether the process is gone that a lock's text names: it is of one's own host and namespace, of which the processes can be seen, and none has its number.
pub(crate) fn is_gone<R: Files + AllocGlobal>(
    rt: &R,
    own: &str,
    told: &[u8],
) -> Result<bool, Reason> {
    let Ok(told) = str::from_utf8(told.trim_ascii()) else {
        return Ok(false);
    };
    let (Some((here, _)), Some((there, number))) = (own.rsplit_once(':'), told.rsplit_once(':'))
    else {
        return Ok(false);
    };
    if here != there || !is_number(number) || look(rt, FIRST)?.is_none() {
        return Ok(false);
    }
    let process = enough(format!(in rt.alloc(); "/proc/{number}"))?;
    Ok(look(rt, process.as_str())?.is_none())
}

fn is_number(text: &str) -> bool {
    !text.is_empty() && text.bytes().all(|byte| byte.is_ascii_digit())
}
