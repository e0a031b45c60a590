// The bytes of a file, read through a window, so that the heads of many small items cost one call of the shelf.
ghost use Rattle.std.specs.Prelude.{◌≡◌, ◌+◌, ◌-◌, ◌≤◌, [], length, take, drop, vec_len, OnOk, OnErr, IfOk, IfErr};
ghost use Rattle.shelf_core.specs.Reads.{Has, OnlyReads};
ghost use Rattle.shelf_reader.specs.Seen.{Sees, Holds, between, is_text_between};
ghost use Rattle.shelf_reader.specs.Readings.{gives, answers, Answers};
ghost use Rattle.shelf_reader.specs.Keeping.{known, seen_on, IsReady, Reads, Shows, StopsFor};

use crate::ReadError;
use cook_bits::Bytes;
use shelf_core::{Shelf, read_piece};
use std::alloc::Global;

/// How many bytes are read at once.
pub const ROOM: u64 = 4096;

/// A reader of one file of a shelf, which is said to have `len` bytes.
#[derive(Drop)]
pub struct Reader<'a, 'b, S> {
    alloc: Global,
    shelf: &'a mut S,
    name: &'b str,
    len: u64,
    // the bytes from this place on, which were read at once
    from: u64,
    bytes: &'a mut Vec<u8>,
}

impl<'a, 'b, S: Shelf> Reader<'a, 'b, S> {
    /// A reader of a file of `len` bytes, with a buffer for its window. It takes no memory.
    #[tactic(auto, using(crate::specs::SeenLaws::seen_laws))]
    pub fn new(
        alloc: Global,
        shelf: &'a mut S,
        name: &'b str,
        len: u64,
        bytes: &'a mut Vec<u8>,
    ) -> Reader<'a, 'b, S>
        requires { Has S.Shelf shelf.old name.now }
        ensures same_shelf { result.shelf.ghost_name ≡ shelf.entry.ghost_name }
        ensures same_buffer { result.bytes.ghost_name ≡ bytes.entry.ghost_name }
        ensures shelf { result.shelf.now ≡ shelf.entry.now }
        ensures name { result.name ≡ name.entry }
        ensures len { result.len ≡ len }
        ensures ready { IsReady S.Shelf result }
    {
        bytes.clear();
        Reader {
            alloc,
            shelf,
            name,
            len,
            from: 0,
            bytes,
        }
    }

    /// The allocator that readings take memory from.
    pub fn alloc(&self) -> Global
        ensures { result ≡ self.now.alloc }
    {
        self.alloc
    }

    /// The length of the file in bytes, as it was said.
    pub fn len(&self) -> u64
        ensures { result ≡ self.now.len }
    {
        self.len
    }
}

// Fills a piece with the bytes of a file of `len` bytes from a place on.
#[tactic(auto, using(crate::specs::ReadingLaws::piece_laws, crate::specs::ReadingLaws::reading_laws))]
fn fill<S: Shelf, F: Drop>(
    shelf: &mut S,
    name: &str,
    len: u64,
    at: u64,
    piece: &mut [u8],
) -> Result<(), ReadError<F>>
    requires there { Has S.Shelf shelf.old name.now }
    requires within { at + length piece.old ≤ len }
    ensures holds { OnOk result (Holds (seen_on S.Shelf shelf.old name.now len) at piece.new) }
    ensures exact { Answers (seen_on S.Shelf shelf.old name.now len) (gives tt) result }
    ensures only { OnlyReads S.Shelf shelf.old shelf.new }
    ensures stops { IfErr result (StopsFor S.Shelf len shelf.old shelf.new) }
{
    read_piece(shelf, name, at, piece)?;
    Ok(())
}

// Fills a buffer with so many bytes of a file of `len` bytes from a place on. After a refusal nothing is said of it.
#[tactic(auto, using(crate::specs::ReadingLaws::piece_laws))]
fn fill_buffer<S: Shelf, F: Drop>(
    shelf: &mut S,
    name: &str,
    len: u64,
    at: u64,
    count: usize,
    bytes: &mut Vec<u8>,
) -> Result<(), ReadError<F>>
    requires there { Has S.Shelf shelf.old name.now }
    requires within { at + count ≤ len }
    ensures count { OnOk result (vec_len bytes.new ≡ count) }
    ensures holds { OnOk result (Holds (seen_on S.Shelf shelf.old name.now len) at bytes.new.items) }
    ensures exact { Answers (seen_on S.Shelf shelf.old name.now len) (gives tt) result }
    ensures only { OnlyReads S.Shelf shelf.old shelf.new }
    ensures stops { IfErr result (StopsFor S.Shelf len shelf.old shelf.new) }
{
    bytes.resize(count, 0)?;
    fill(shelf, name, len, at, bytes.as_mut_slice())
}

impl<'a, 'b, S: Shelf> Reader<'a, 'b, S> {
    // Moves the window to a place, so that so many bytes from there on stand in it.
    #[tactic(auto, using(crate::specs::SeenLaws::seen_laws, crate::specs::ReadingLaws::reading_laws))]
    fn move_to<F: Drop>(&mut self, at: u64, count: usize) -> Result<(), ReadError<F>>
        requires ready { IsReady S.Shelf self.old }
        requires within { at + count ≤ self.old.len }
        ensures from { OnOk result (self.new.from ≡ at) }
        ensures count { OnOk result (length self.new.bytes.now.items ≡ count) }
        ensures exact { Answers (known S.Shelf self.old) (gives tt) result }
        ensures reads { Reads S.Shelf self.old self.new result }
    {
        self.from = at;
        let filled = fill_buffer(self.shelf, self.name, self.len, at, count, self.bytes);
        if filled.is_err() {
            self.bytes.clear();
        }
        filled
    }

    /// Moves the window to where the bytes from one place up to another stand in it: at most `ROOM` of them.
    #[tactic(auto, using(crate::specs::ReadingLaws::reading_laws))]
    pub fn show<F: Drop>(&mut self, from: u64, to: u64) -> Result<(), ReadError<F>>
        requires ready { IsReady S.Shelf self.old }
        requires before { from ≤ to }
        requires room { to - from ≤ 4096 }
        requires within { to ≤ self.old.len }
        ensures shows { OnOk result (Shows self.new from to) }
        ensures exact { Answers (known S.Shelf self.old) (gives tt) result }
        ensures reads { Reads S.Shelf self.old self.new result }
    {
        if self.from <= from && to - self.from <= self.bytes.len() as u64 {
            return Ok(());
        }
        let count = (self.len - from).min(ROOM) as usize;
        self.move_to(from, count)
    }

    /// The bytes from one place up to another, which stand in the window.
    #[tactic(auto, using(crate::proofs::WindowLaws::window_laws))]
    pub fn part(&self, from: u64, to: u64) -> &[u8]
        requires ready { IsReady S.Shelf self.now }
        requires before { from ≤ to }
        requires shows { Shows self.now from to }
        ensures len { length result.now ≡ to - from }
        ensures part { Sees (known S.Shelf self.now) (between from to) result.now }
    {
        let start = (from - self.from) as usize;
        &self.bytes[start..start + (to - from) as usize]
    }

    /// A copy of the bytes from one place up to another: from the window, or at once where they are too many for it. No more
    /// memory is taken than the file has bytes.
    #[tactic(auto, using(crate::specs::ReadingLaws::reading_laws, crate::proofs::WindowLaws::window_laws))]
    pub fn copy<F: Drop>(&mut self, from: u64, to: u64) -> Result<Bytes, ReadError<F>>
        requires ready { IsReady S.Shelf self.old }
        requires before { from ≤ to }
        requires within { to ≤ self.old.len }
        ensures exact { Answers (known S.Shelf self.old) (answers (between from to)) result }
        ensures reads { Reads S.Shelf self.old self.new result }
    {
        let count = to - from;
        if count <= ROOM {
            self.show(from, to)?;
            return Ok(Bytes::copy(self.alloc, self.part(from, to))?);
        }
        let mut bytes = Vec::new(self.alloc);
        fill_buffer(
            self.shelf,
            self.name,
            self.len,
            from,
            count as usize,
            &mut bytes,
        )?;
        Ok(Bytes::from_vec(bytes))
    }

    /// Whether a text of at most `ROOM` bytes stands from one place up to another.
    #[tactic(auto, using(crate::specs::ReadingLaws::reading_laws, crate::proofs::WindowLaws::window_laws, crate::specs::SeenLaws::seen_laws))]
    pub fn is_text<F: Drop>(
        &mut self,
        from: u64,
        to: u64,
        text: &[u8],
    ) -> Result<bool, ReadError<F>>
        requires ready { IsReady S.Shelf self.old }
        requires room { length text.now ≤ 4096 }
        requires before { from ≤ to }
        requires within { to ≤ self.old.len }
        ensures exact { Answers (known S.Shelf self.old) (answers (is_text_between text.now from to)) result }
        ensures reads { Reads S.Shelf self.old self.new result }
    {
        if to - from != text.len() as u64 {
            return Ok(false);
        }
        self.show(from, to)?;
        Ok(self.part(from, to) == text)
    }
}
