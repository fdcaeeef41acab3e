//! Texts and files in memory.
use sd_base::{Files, MemFiles, MemSink, Name, OpenGate};
use sd_config::Settings;
use sd_extract::extract;
use sd_extract::laws::extracted_is_formed;
use sd_parse::read_program;
use sd_product::Work;
use sd_run::{Ended, run};
use sd_types::check;
use std::alloc::Global;
use std::process::Abort;
use std::test::Fail;
use std::thread::Threads;

pub(crate) const ROOM: usize = 600;

pub(crate) const VERIFY: [&str; 3] = ["verify", "old", "new"];

pub(crate) const CERTIFY: [&str; 5] = ["verify", "old", "new", "--certificate", "c"];

pub(crate) const ASSERTS_B: &[u8] = b"procedure p(b: bool) { assert b; }\n";

pub(crate) const AT_LEAST_ONE: &[u8] = b"procedure p(x: int) { assert x >= 1; }\n";

pub(crate) const AT_LEAST_ZERO: &[u8] = b"procedure p(x: int) { assert x >= 0; }\n";

/// The files `old`, `new` and `c`, none longer than the room, which fail at the calls of these numbers. In `c` are
/// six bytes.
pub(crate) fn files_of<R: Abort>(
    rt: &R,
    alloc: Global,
    old: &[u8],
    new: &[u8],
    room: usize,
    failing: &[u64],
) -> Result<MemFiles, Fail> {
    let certificate = b"before".as_slice();
    assert!(rt; old.len() <= room);
    assert!(rt; new.len() <= room);
    assert!(rt; certificate.len() <= room);
    let files = vec![in alloc;
        (Name::new(alloc, b"old")?, old.to_vec(alloc)?),
        (Name::new(alloc, b"new")?, new.to_vec(alloc)?),
        (Name::new(alloc, b"c")?, certificate.to_vec(alloc)?),
    ]?;
    Ok(MemFiles::new(alloc, files, room, failing.to_vec(alloc)?)?)
}

/// Whether the file `c` has these bytes.
pub(crate) fn has_certificate(files: &mut MemFiles, text: &[u8]) -> bool {
    let mut bytes = [0u8; ROOM];
    match files.read_at("c", 0, &mut bytes) {
        Ok(count) if count <= ROOM => &bytes[..count] == text,
        _ => false,
    }
}

/// Runs these words over these files.
pub(crate) fn run_words<R: Threads + Sync + Abort>(
    rt: &R,
    alloc: Global,
    words: &[&str],
    files: &mut MemFiles,
    sink: &mut MemSink,
) -> Result<Ended, Fail> {
    let mut all = Vec::new(alloc);
    for word in words {
        all.push(String::from_str(alloc, word)?)?;
    }
    Ok(run(rt, alloc, all.as_slice(), files, sink, &OpenGate))
}

/// What two texts give to judge.
pub(crate) fn work_of(alloc: Global, old: &[u8], new: &[u8]) -> Result<Work, Fail> {
    let Ok(old_program) = read_program(alloc, old) else {
        return Err(Fail::new("the old text isn't read"));
    };
    let Ok(new_program) = read_program(alloc, new) else {
        return Err(Fail::new("the new text isn't read"));
    };
    let Ok(old_typed) = check(alloc, old_program) else {
        return Err(Fail::new("the old text isn't typed"));
    };
    let Ok(new_typed) = check(alloc, new_program) else {
        return Err(Fail::new("the new text isn't typed"));
    };
    extracted_is_formed();
    let old_core = extract(alloc, &old_typed)?;
    let new_core = extract(alloc, &new_typed)?;
    Ok(Work::new(alloc, old_core, new_core, &Settings::none())?)
}
