ghost use Rattle.std.specs.Prelude.{◌≡◌, ◌≢◌, ◌≤◌, ◌+◌, ◌-◌, ℕ, List, All, AllPairs, map, length, take, min, nat_le, position, IfOk, IfSome, OnOk, OnErr, is_ok, is_some};
ghost use Rattle.std.specs.Bool.{OnTrue};
ghost use Rattle.sd_base.specs.Causes.{HasCause};
ghost use Rattle.sd_base.specs.Outside.{WhereKnown, CopiesPiece, appended, emptied, OthersStay};
ghost use Rattle.sd_base.specs.Memory.{is_named, file_in, content_in, file_with, changed, without_bytes, with_piece, has_room, is_reached, is_added, after_read, after_start, after_append};

use crate::{Failed, Files, Name, NoMemory};
use std::alloc::Global;
use std::marker::Model;

/// One file in memory.
#[derive(Drop)]
pub struct MemFile {
    name: Name,
    bytes: Vec<u8>,
    room: usize,
}

impl Model for MemFile {
    ghost use Rattle.std.specs.Prelude.{◌≤◌, length};
    ghost use Rattle.std.specs.Vec.{vec_capacity};
    ghost use Rattle.sd_base.specs.Memory.{FileInMemory};

    ghost Value = { FileInMemory };

    ghost view = { λ f. record { name = f.name; bytes = f.bytes.items; room = f.room } };

    ghost invariant = { λ f. (length f.bytes.items ≤ f.room) × (f.room ≤ vec_capacity f.bytes) };
}

impl MemFile {
    fn new(name: Name, bytes: Vec<u8>, room: usize) -> Result<MemFile, NoMemory>
        requires { length bytes.items ≤ room }
        ensures { IfOk result (λ file. file ≡ record { name = name; bytes = bytes.items; room = room }) }
    {
        let mut bytes = bytes;
        let more = room - bytes.len();
        match bytes.reserve_exact(more) {
            Ok(()) => Ok(MemFile { name, bytes, room }),
            Err(_) => Err(NoMemory),
        }
    }

    fn is_named(&self, name: &[u8]) -> bool
        ensures { result ≡ is_named name.now self.now }
    {
        self.name.has_bytes(name)
    }

    fn bytes(&self) -> &[u8]
        ensures { result.now ≡ self.now.bytes }
    {
        self.bytes.as_slice()
    }

    fn clear(&mut self)
        ensures { self.new ≡ without_bytes self.old }
    {
        self.bytes.clear();
    }

    /// Adds what fits of the piece, and answers whether all of it did.
    fn append(&mut self, piece: &[u8]) -> bool
        ensures fits { result ≡ nat_le (length self.old.bytes + length piece.now) self.old.room }
        ensures added { self.new ≡ with_piece piece.now self.old }
    {
        let left = self.room - self.bytes.len();
        let count = piece.len().min(left);
        if self.bytes.extend_from_slice(&piece[..count]).is_err() {
            unreachable!()
        }
        piece.len() <= left
    }
}

fn place_of(files: &[MemFile], name: &str) -> Option<usize>
    ensures { result ≡ position (is_named name.now) files.now }
{
    files.iter().position(|file| file.is_named(name.as_bytes()))
}

/// Files in memory, which take all their memory when they are made, and fail at the calls of these numbers.
#[derive(Drop)]
pub struct MemFiles {
    files: Vec<MemFile>,
    failing: Vec<u64>,
    calls: u64,
    read_faults: u64,
    start_faults: u64,
    append_faults: u64,
}

impl Model for MemFiles {
    ghost use Rattle.sd_base.specs.Memory.{FilesInMemory};

    ghost Value = { FilesInMemory };

    ghost view = { λ m. record {
      files = m.files.items;
      failing = m.failing.items;
      calls = m.calls;
      read_faults = m.read_faults;
      start_faults = m.start_faults;
      append_faults = m.append_faults;
    } };
}

impl MemFiles {
    /// These files, none longer than the room and no two of one name.
    pub fn new(
        alloc: Global,
        files: Vec<(Name, Vec<u8>)>,
        room: usize,
        failing: Vec<u64>,
    ) -> Result<MemFiles, NoMemory>
        requires names { AllPairs (λ one other. one.0 ≢ other.0) files.items }
        requires lengths { All (λ file. length file.1.items ≤ room) files.items }
        ensures { IfOk result (λ made. made ≡ record {
          files = map (file_with room) files.items;
          failing = failing.items;
          calls = 0;
          read_faults = 0;
          start_faults = 0;
          append_faults = 0;
        }) }
    {
        let mut files = files;
        let mut made = Vec::new(alloc);
        'files: while !files.is_empty() {
            let (name, bytes) = files.remove(0);
            if made.push(MemFile::new(name, bytes, room)?).is_err() {
                return Err(NoMemory);
            }
        }
        Ok(MemFiles {
            files: made,
            failing,
            calls: 0,
            read_faults: 0,
            start_faults: 0,
            append_faults: 0,
        })
    }
}

impl Files for MemFiles {
    ghost content = { λ m name. content_in m.files name };

    ghost read_faults = { λ m _. m.read_faults };

    ghost start_faults = { λ m _. m.start_faults };

    ghost append_faults = { λ m _. m.append_faults };

    fn read_at(&mut self, name: &str, at: u64, into: &mut [u8]) -> Result<usize, Failed>
        ensures within { IfOk result (λ count. count ≤ length into.new) }
        ensures piece { IfOk result (λ count.
            WhereKnown (content_in self.old.files name.now) (λ bytes. CopiesPiece bytes at into.new count)) }
        ensures stay { (other : List ℕ) → content_in self.new.files other ≡ content_in self.old.files other }
        ensures cause { HasCause self.old.read_faults self.new.read_faults result }
        ensures reads { (other : List ℕ) → self.old.read_faults ≤ self.new.read_faults }
        ensures starts { (other : List ℕ) → self.old.start_faults ≤ self.new.start_faults }
        ensures appends { (other : List ℕ) → self.old.append_faults ≤ self.new.append_faults }
        ensures no_fault { OnOk result (((other : List ℕ) → self.new.read_faults ≡ self.old.read_faults)
            × ((other : List ℕ) → self.new.start_faults ≡ self.old.start_faults)
            × ((other : List ℕ) → self.new.append_faults ≡ self.old.append_faults)) }

        // Exactly what it does.
        ensures succeeds { is_ok result ≡ is_reached self.old name.now }
        ensures count { IfOk result (λ count. WhereKnown (content_in self.old.files name.now)
            (λ bytes. count ≡ min (length into.new) (length bytes - at))) }
        ensures after { self.new ≡ after_read self.old name.now }
    {
        let failing = self.failing.contains(&self.calls);
        self.calls = self.calls.saturating_add(1);
        if failing {
            self.read_faults = self.read_faults.saturating_add(1);
            return Err(Failed);
        }
        match read_from(&self.files, name, at, into) {
            Some(count) => Ok(count),
            None => {
                self.read_faults = self.read_faults.saturating_add(1);
                Err(Failed)
            }
        }
    }

    fn start(&mut self, name: &str) -> Result<(), Failed>
        ensures emptied { OnOk result
            (content_in self.new.files name.now ≡ emptied (content_in self.old.files name.now)) }
        ensures stay { (other : List ℕ) → other ≢ name.now
            → content_in self.new.files other ≡ content_in self.old.files other }
        ensures cause { HasCause self.old.start_faults self.new.start_faults result }
        ensures reads { (other : List ℕ) → self.old.read_faults ≤ self.new.read_faults }
        ensures starts { (other : List ℕ) → self.old.start_faults ≤ self.new.start_faults }
        ensures appends { (other : List ℕ) → self.old.append_faults ≤ self.new.append_faults }
        ensures no_fault { OnOk result (((other : List ℕ) → self.new.read_faults ≡ self.old.read_faults)
            × ((other : List ℕ) → self.new.start_faults ≡ self.old.start_faults)
            × ((other : List ℕ) → self.new.append_faults ≡ self.old.append_faults)) }

        // Exactly what it does.
        ensures succeeds { is_ok result ≡ is_reached self.old name.now }
        ensures after { self.new ≡ after_start self.old name.now }
    {
        let failing = self.failing.contains(&self.calls);
        self.calls = self.calls.saturating_add(1);
        if failing || !clear_in(&mut self.files, name) {
            self.start_faults = self.start_faults.saturating_add(1);
            return Err(Failed);
        }
        Ok(())
    }

    fn append(&mut self, name: &str, piece: &[u8]) -> Result<(), Failed>
        ensures added { OnOk result
            (content_in self.new.files name.now ≡ appended (content_in self.old.files name.now) piece.now) }
        ensures part { OnErr result ((count : ℕ) × (content_in self.new.files name.now
            ≡ appended (content_in self.old.files name.now) (take count piece.now))) }
        ensures stay { (other : List ℕ) → other ≢ name.now
            → content_in self.new.files other ≡ content_in self.old.files other }
        ensures cause { HasCause self.old.append_faults self.new.append_faults result }
        ensures reads { (other : List ℕ) → self.old.read_faults ≤ self.new.read_faults }
        ensures starts { (other : List ℕ) → self.old.start_faults ≤ self.new.start_faults }
        ensures appends { (other : List ℕ) → self.old.append_faults ≤ self.new.append_faults }
        ensures no_fault { OnOk result (((other : List ℕ) → self.new.read_faults ≡ self.old.read_faults)
            × ((other : List ℕ) → self.new.start_faults ≡ self.old.start_faults)
            × ((other : List ℕ) → self.new.append_faults ≡ self.old.append_faults)) }

        // Exactly what it does.
        ensures succeeds { is_ok result ≡ is_added self.old name.now piece.now }
        ensures after { self.new ≡ after_append self.old name.now piece.now }
    {
        let failing = self.failing.contains(&self.calls);
        self.calls = self.calls.saturating_add(1);
        if failing {
            self.append_faults = self.append_faults.saturating_add(1);
            return Err(Failed);
        }
        if !append_in(&mut self.files, name, piece) {
            self.append_faults = self.append_faults.saturating_add(1);
            return Err(Failed);
        }
        Ok(())
    }
}

/// Reads from the file of this name.
fn read_from(files: &[MemFile], name: &str, at: u64, into: &mut [u8]) -> Option<usize>
    ensures found { is_some result ≡ is_some (file_in files.now name.now) }
    ensures piece { IfSome result (λ count.
        WhereKnown (content_in files.now name.now) (λ bytes. CopiesPiece bytes at into.new count)) }
    ensures count { IfSome result (λ count. WhereKnown (content_in files.now name.now)
        (λ bytes. count ≡ min (length into.new) (length bytes - at))) }
    ensures within { IfSome result (λ count. count ≤ length into.new) }
{
    match place_of(files, name) {
        Some(place) => {
            let file = &files[place];
            Some(copy_from(file.bytes(), at, into))
        }
        None => None,
    }
}

/// Empties the file of this name, and answers whether there is one.
fn clear_in(files: &mut [MemFile], name: &str) -> bool
    ensures found { result ≡ is_some (file_in files.old name.now) }
    ensures changed { files.new ≡ changed without_bytes name.now files.old }
    ensures emptied { content_in files.new name.now ≡ emptied (content_in files.old name.now) }
    ensures stay { OthersStay content_in files.old files.new name.now }
{
    match place_of(files, name) {
        Some(place) => {
            let file = &mut files[place];
            file.clear();
            true
        }
        None => false,
    }
}

/// Adds what fits of the piece to the file of this name, and answers whether all of it did.
fn append_in(files: &mut [MemFile], name: &str, piece: &[u8]) -> bool
    ensures all { result ≡ has_room piece.now (file_in files.old name.now) }
    ensures changed { files.new ≡ changed (with_piece piece.now) name.now files.old }
    ensures added { OnTrue result
        (content_in files.new name.now ≡ appended (content_in files.old name.now) piece.now) }
    ensures part { (count : ℕ)
        × (content_in files.new name.now ≡ appended (content_in files.old name.now) (take count piece.now)) }
    ensures stay { OthersStay content_in files.old files.new name.now }
{
    match place_of(files, name) {
        Some(place) => {
            let file = &mut files[place];
            file.append(piece)
        }
        None => false,
    }
}

/// Copies the bytes from a place on, as many as there are and fit.
fn copy_from(bytes: &[u8], at: u64, into: &mut [u8]) -> usize
    ensures copied { CopiesPiece bytes.now at into.new result }
    ensures count { result ≡ min (length into.new) (length bytes.now - at) }
{
    if at >= bytes.len() as u64 {
        return 0;
    }
    let rest = &bytes[at as usize..];
    let count = into.len().min(rest.len());
    into[..count].copy_from_slice(&rest[..count]);
    count
}
