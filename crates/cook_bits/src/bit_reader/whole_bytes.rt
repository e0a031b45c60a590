ghost use Rattle.std.specs.Prelude.{◌≡◌, ◌/◌, ◌%◌, length, drop};

use super::BitReader;

impl BitReader<'_> {
    /// How many whole bytes are left. It takes no memory.
    #[inline]
    pub fn bytes_left(&self) -> usize
        ensures { result ≡ length self.now / 8 }
    {
        self.rest.len() + (self.held / 8) as usize
    }

    /// Takes the bits before the whole bytes that are left, fewer than eight. It takes no memory.
    #[inline]
    pub fn align(&mut self)
        ensures { self.new ≡ drop (length self.old % 8) self.old }
    {
        self.held -= self.held % 8;
    }
}
