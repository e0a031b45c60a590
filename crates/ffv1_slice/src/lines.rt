// The lines of a plane of which samples are predicted.

ghost use Rattle.std.specs.Prelude.{◌≡◌, ◌+◌, ◌<◌, ◌≤◌, length, replicate, IfOk};
ghost use Rattle.ffv1_slice.specs.Borders.{IsBordered};

use cook_bits::NoMemory;
use std::alloc::Global;

/// Three lines of a plane with their borders: two places left of a line, and one right.
#[derive(Drop)]
pub(crate) struct Lines {
    pub(crate) above2: Vec<u32>,
    pub(crate) above: Vec<u32>,
    pub(crate) line: Vec<u32>,
}

impl Lines {
    ghost use Rattle.ffv1_slice.specs.Blank.{IsBlank, IsCleared};

    /// Lines of zeros, with so many places.
    pub(crate) fn new(alloc: Global, len: usize) -> Result<Lines, NoMemory>
        ensures { IfOk result (IsBlank len) }
    {
        let above2 = vec![in alloc; 0; len]?;
        let above = vec![in alloc; 0; len]?;
        let line = vec![in alloc; 0; len]?;
        Ok(Lines {
            above2,
            above,
            line,
        })
    }

    /// Fills the lines with zeros.
    pub(crate) fn clear(&mut self)
        ensures { IsCleared self.old self.new }
    {
        clear(self.above2.as_mut_slice());
        clear(self.above.as_mut_slice());
        clear(self.line.as_mut_slice());
    }

    /// Goes down a line: the last line is the one above, and another takes its place.
    pub(crate) fn go_down(&mut self)
        ensures above2 { self.new.above2.items ≡ self.old.above.items }
        ensures above { self.new.above.items ≡ self.old.line.items }
        ensures line { self.new.line.items ≡ self.old.above2.items }
    {
        std::mem::swap(&mut self.above2, &mut self.above);
        std::mem::swap(&mut self.above, &mut self.line);
    }

    /// Writes the borders of the last line, whose samples stand in it.
    pub(crate) fn close(&mut self, width: usize)
        requires some { 1 ≤ width }
        requires above { width + 3 ≤ length self.old.above.items }
        requires line { width + 3 ≤ length self.old.line.items }
        ensures bordered { IsBordered width self.old.above.items self.old.line.items self.new.line.items }
        ensures above2 { self.new.above2.items ≡ self.old.above2.items }
        ensures above { self.new.above.items ≡ self.old.above.items }
    {
        close(self.above.as_slice(), self.line.as_mut_slice(), width);
    }
}

/// The lines of the three planes.
#[derive(Drop)]
pub(crate) struct Planes {
    pub(crate) luma: Lines,
    pub(crate) blue: Lines,
    pub(crate) red: Lines,
}

impl Planes {
    ghost use Rattle.ffv1_slice.specs.Blank.{IsBlank, IsCleared};

    /// Lines of zeros, with so many places.
    pub(crate) fn new(alloc: Global, len: usize) -> Result<Planes, NoMemory>
        ensures luma { IfOk result (λ planes. IsBlank len planes.luma) }
        ensures blue { IfOk result (λ planes. IsBlank len planes.blue) }
        ensures red { IfOk result (λ planes. IsBlank len planes.red) }
    {
        let luma = Lines::new(alloc, len)?;
        let blue = Lines::new(alloc, len)?;
        let red = Lines::new(alloc, len)?;
        Ok(Planes { luma, blue, red })
    }

    /// Fills the lines with zeros.
    pub(crate) fn clear(&mut self)
        ensures luma { IsCleared self.old.luma self.new.luma }
        ensures blue { IsCleared self.old.blue self.new.blue }
        ensures red { IsCleared self.old.red self.new.red }
    {
        self.luma.clear();
        self.blue.clear();
        self.red.clear();
    }
}

// Writes the borders around the samples of a line.
fn close(above: &[u32], line: &mut [u32], width: usize)
    requires some { 1 ≤ width }
    requires above { width + 3 ≤ length above.now }
    requires line { width + 3 ≤ length line.old }
    ensures { IsBordered width above.now line.old line.new }
{
    line[0] = 0;
    line[1] = above[2];
    line[width + 2] = line[width + 1];
}

// Fills a line with zeros.
fn clear(line: &mut [u32])
    ensures { line.new ≡ replicate (length line.old) 0 }
{
    line.fill(0);
}
