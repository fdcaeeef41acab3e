//! Calls of the outside that fail, each in turn.
use crate::given::{ASSERTS_B, CERTIFY, ROOM, VERIFY, files_of, has_certificate, run_words};
use sd_base::{Files, MemFiles, MemSink, Sink};
use sd_run::CertificateFile;
use std::test::Fail;

/// The certificate of two empty texts.
const OF_EMPTY_TEXTS: &[u8] = b"symdiff-certificate 1
old e3b0c44298fc1c149afbf4c8996fb92427ae41e4649b934ca495991b7852b855
new e3b0c44298fc1c149afbf4c8996fb92427ae41e4649b934ca495991b7852b855
settings e3b0c44298fc1c149afbf4c8996fb92427ae41e4649b934ca495991b7852b855
pairs 0
end
";

/// Whether the next call on the files fails: where the failing list names just the number after that of a failed call,
/// so it is exactly where no call followed the failed one.
fn fails_next(files: &mut MemFiles) -> bool {
    files.read_at("c", 0, &mut [0u8; 1]).is_err()
}

#[test]
fn a_read_that_fails(rt: HostRuntime) -> Result<(), Fail> {
    let alloc = rt.alloc();
    // Two calls read the old file and find its end, and the third is the first on the new one.
    let mut files = files_of(&rt, alloc, ASSERTS_B, ASSERTS_B, ROOM, &[2, 3])?;
    let mut sink = MemSink::new(alloc, 1000, 1000, Vec::new(alloc))?;
    let ended = run_words(&rt, alloc, &VERIFY, &mut files, &mut sink)?;
    assert_eq!(rt; ended.status.code, 6);
    assert_eq!(rt; sink.bytes(), b"".as_slice());
    assert!(rt; fails_next(&mut files));
    Ok(())
}

#[test]
fn a_start_that_fails(rt: HostRuntime) -> Result<(), Fail> {
    let alloc = rt.alloc();
    // An empty file is read in one call, which finds its end.
    let mut files = files_of(&rt, alloc, b"", b"", ROOM, &[2, 3])?;
    let mut sink = MemSink::new(alloc, 1000, 1000, Vec::new(alloc))?;
    let ended = run_words(&rt, alloc, &CERTIFY, &mut files, &mut sink)?;
    assert_eq!(rt; ended.status.code, 7);
    assert_eq!(rt; ended.certificate_file, CertificateFile::NotStarted);
    assert_eq!(rt; sink.bytes(), b"".as_slice());
    assert!(rt; fails_next(&mut files));
    assert!(rt; has_certificate(&mut files, b"before"));
    Ok(())
}

#[test]
fn an_append_that_fails(rt: HostRuntime) -> Result<(), Fail> {
    let alloc = rt.alloc();
    let mut files = files_of(&rt, alloc, b"", b"", ROOM, &[3, 4])?;
    let mut sink = MemSink::new(alloc, 1000, 1000, Vec::new(alloc))?;
    let ended = run_words(&rt, alloc, &CERTIFY, &mut files, &mut sink)?;
    assert_eq!(rt; ended.status.code, 7);
    assert_eq!(rt; ended.certificate_file, CertificateFile::Cut);
    assert_eq!(rt; sink.bytes(), b"".as_slice());
    assert!(rt; fails_next(&mut files));
    assert!(rt; has_certificate(&mut files, b""));
    Ok(())
}

#[test]
fn an_append_beyond_the_room(rt: HostRuntime) -> Result<(), Fail> {
    let alloc = rt.alloc();
    let mut files = files_of(&rt, alloc, b"", b"", 200, &[])?;
    let mut sink = MemSink::new(alloc, 1000, 1000, Vec::new(alloc))?;
    let ended = run_words(&rt, alloc, &CERTIFY, &mut files, &mut sink)?;
    assert_eq!(rt; ended.status.code, 7);
    assert_eq!(rt; ended.certificate_file, CertificateFile::Cut);
    assert_eq!(rt; sink.bytes(), b"".as_slice());
    assert!(rt; has_certificate(&mut files, &OF_EMPTY_TEXTS[..200]));
    Ok(())
}

#[test]
fn a_put_that_fails(rt: HostRuntime) -> Result<(), Fail> {
    let alloc = rt.alloc();
    let mut files = files_of(&rt, alloc, ASSERTS_B, ASSERTS_B, ROOM, &[])?;
    // Its second call, counted from 0, fails, and so would the one after it.
    let mut sink = MemSink::new(alloc, 10, 1000, vec![in alloc; 1, 2]?)?;
    let ended = run_words(&rt, alloc, &VERIFY, &mut files, &mut sink)?;
    assert_eq!(rt; ended.status.code, 7);
    assert_eq!(rt; sink.bytes(), b"safe p p\np".as_slice());
    assert!(rt; sink.put(b"x").is_err());
    Ok(())
}

#[test]
fn a_call_after_one_that_fails(rt: HostRuntime) -> Result<(), Fail> {
    let alloc = rt.alloc();
    let mut files = files_of(&rt, alloc, b"", b"", ROOM, &[0, 2])?;
    assert!(rt; files.start("c").is_err());
    assert!(rt; files.start("c").is_ok());
    assert!(rt; files.append("c", b"once").is_err());
    assert!(rt; files.append("c", b"twice").is_ok());
    assert!(rt; has_certificate(&mut files, b"twice"));
    let mut sink = MemSink::new(alloc, 3, 5, vec![in alloc; 0]?)?;
    assert!(rt; sink.put(b"abc").is_err());
    assert!(rt; matches!(sink.put(b"abcd"), Ok(3)));
    assert!(rt; matches!(sink.put(b"defg"), Ok(2)));
    assert!(rt; sink.put(b"h").is_err());
    assert_eq!(rt; sink.bytes(), b"abcde".as_slice());
    Ok(())
}
