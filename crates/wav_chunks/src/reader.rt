// The bytes of a file, read through a window that is lent, so that the heads of many small chunks cost one call of the shelf
// and no memory is taken.
ghost use Rattle.std.specs.Prelude.{◌≡◌, ◌+◌, ◌-◌, ◌≤◌, length, OnOk, IfErr};
ghost use Rattle.shelf_core.specs.Reads.{OnlyReads};
ghost use Rattle.shelf_core.specs.Told.{HasFile};
ghost use Rattle.shelf_reader.specs.Seen.{seen, Sees, Holds, between, is_same_text};
ghost use Rattle.shelf_reader.specs.Readings.{gives, Answers};
ghost use Rattle.wav_chunks.specs.Window.{known, IsReady, Reads, Shows, StopsFor};

use crate::why::Reading;
use shelf_core::{Shelf, read_piece};

/// A reader of one file of a shelf, which is said to have `len` bytes.
#[derive(Drop)]
pub struct Reader<'a, 'b, S> {
    shelf: &'a mut S,
    name: &'b str,
    len: u64,
    // so many bytes of the window, from this place on, were read at once
    from: u64,
    held: usize,
    window: &'a mut [u8],
}

impl<'a, 'b, S: Shelf> Reader<'a, 'b, S> {
    /// A reader of a file of `len` bytes, with a window of 40 bytes and more.
    #[tactic(auto, using(shelf_reader::specs::SeenLaws::seen_laws, crate::proofs::WindowLaws::window_laws))]
    pub fn new(shelf: &'a mut S, name: &'b str, len: u64, window: &'a mut [u8]) -> Reader<'a, 'b, S>
        requires there { HasFile (S.files shelf.old) name.now }
        requires room { 40 ≤ length window.old }
        ensures same_shelf { result.shelf.ghost_name ≡ shelf.entry.ghost_name }
        ensures same_window { result.window.ghost_name ≡ window.entry.ghost_name }
        ensures shelf { result.shelf.now ≡ shelf.entry.now }
        ensures name { result.name ≡ name.entry }
        ensures len { result.len ≡ len }
        ensures ready { IsReady S.Shelf result }
    {
        Reader {
            shelf,
            name,
            len,
            from: 0,
            held: 0,
            window,
        }
    }

    /// The length of the file in bytes, as it was said.
    pub fn len(&self) -> u64
        ensures { result ≡ self.now.len }
    {
        self.len
    }
}

/// Whether bytes are a text.
pub fn is_same(bytes: &[u8], text: &[u8]) -> bool
    ensures { result ≡ is_same_text bytes.now text.now }
{
    bytes == text
}

// Fills a piece with the bytes of a file of `len` bytes from a place on.
#[tactic(auto, using(shelf_reader::specs::ReadingLaws::piece_laws, shelf_reader::specs::ReadingLaws::reading_laws))]
fn fill<S: Shelf>(shelf: &mut S, name: &str, len: u64, at: u64, piece: &mut [u8]) -> Reading<()>
    requires there { HasFile (S.files shelf.old) name.now }
    requires within { at + length piece.old ≤ len }
    ensures holds { OnOk result (Holds (seen (S.files shelf.old) name.now len) at piece.new) }
    ensures exact { Answers (seen (S.files shelf.old) name.now len) (gives tt) result }
    ensures only { OnlyReads S.Shelf shelf.old shelf.new }
    ensures stops { IfErr result (StopsFor S.Shelf len shelf.old shelf.new) }
{
    read_piece(shelf, name, at, piece)?;
    Ok(())
}

impl<'a, 'b, S: Shelf> Reader<'a, 'b, S> {
    // Moves the window to a place, so that so many bytes from there on stand in it.
    #[tactic(auto, using(shelf_reader::specs::SeenLaws::seen_laws, shelf_reader::specs::ReadingLaws::reading_laws, crate::proofs::WindowLaws::window_laws))]
    fn move_to(&mut self, at: u64, count: usize) -> Reading<()>
        requires ready { IsReady S.Shelf self.old }
        requires room { count ≤ length self.old.window.now }
        requires within { at + count ≤ self.old.len }
        ensures from { OnOk result (self.new.from ≡ at) }
        ensures held { OnOk result (self.new.held ≡ count) }
        ensures exact { Answers (known S.Shelf self.old) (gives tt) result }
        ensures reads { Reads S.Shelf self.old self.new result }
    {
        self.from = at;
        self.held = 0;
        fill(
            self.shelf,
            self.name,
            self.len,
            at,
            &mut self.window[..count],
        )?;
        self.held = count;
        Ok(())
    }

    /// Moves the window to where the bytes from one place up to another stand in it: at most 40 of them.
    #[tactic(auto, using(shelf_reader::specs::ReadingLaws::reading_laws))]
    pub fn show(&mut self, from: u64, to: u64) -> Reading<()>
        requires ready { IsReady S.Shelf self.old }
        requires before { from ≤ to }
        requires room { to - from ≤ 40 }
        requires within { to ≤ self.old.len }
        ensures shows { OnOk result (Shows self.new from to) }
        ensures exact { Answers (known S.Shelf self.old) (gives tt) result }
        ensures reads { Reads S.Shelf self.old self.new result }
    {
        if self.from <= from && to - self.from <= self.held as u64 {
            return Ok(());
        }
        let count = (self.len - from).min(self.window.len() as u64) as usize;
        self.move_to(from, count)
    }

    /// The bytes from one place up to another, which stand in the window.
    #[tactic(auto, using(crate::proofs::WindowLaws::window_laws))]
    pub fn part(&self, from: u64, to: u64) -> &[u8]
        requires ready { IsReady S.Shelf self.now }
        requires before { from ≤ to }
        requires shows { Shows self.now from to }
        ensures len { length result.now ≡ to - from }
        ensures part { Sees (known S.Shelf self.now) (between from to) result.now }
    {
        let start = (from - self.from) as usize;
        &self.window[start..start + (to - from) as usize]
    }
}
