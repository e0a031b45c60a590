ghost use Rattle.std.specs.Prelude.{◌≡◌, ◌≤◌, IsTrue};
ghost use Rattle.shelf_core.specs.Calls.{Counted, is_listed, risen, is_among};
ghost use Rattle.shelf_core.specs.Causes.{Rose};

/// Counts the calls of an object, of which some are to fail, and how often it failed.
#[derive(Debug, Drop)]
pub struct Calls {
    made: u64,
    failing: Vec<u32>,
    faults: u64,
}

impl Calls {
    /// No call was made. Those of the given numbers will fail; the first call has number 1.
    pub fn new(failing: Vec<u32>) -> Calls
        ensures made { result.made ≡ 0 }
        ensures failing { result.failing.items ≡ failing.items }
        ensures faults { result.faults ≡ 0 }
    {
        Calls {
            made: 0,
            failing,
            faults: 0,
        }
    }

    /// Counts a call, and answers whether it is to fail. Then the count of faults rises.
    pub fn count(&mut self) -> bool
        ensures listed { result ≡ is_listed self.old }
        ensures counted { Counted self.old self.new }
        ensures rose { IsTrue result → Rose self.old.faults self.new.faults }
        ensures kept { self.old.faults ≤ self.new.faults }
    {
        let number = one_more(self.made);
        let listed = is_number_among(self.failing.as_slice(), number);
        self.made = number;
        if listed {
            self.faults = one_more(self.faults);
        }
        listed
    }

    /// The count of faults rises for another cause than a listed call.
    pub fn fail(&mut self)
        ensures made { self.new.made ≡ self.old.made }
        ensures failing { self.new.failing.items ≡ self.old.failing.items }
        ensures faults { self.new.faults ≡ risen self.old.faults }
        ensures rose { Rose self.old.faults self.new.faults }
        ensures kept { self.old.faults ≤ self.new.faults }
    {
        self.faults = one_more(self.faults);
    }
}

/// One more than a count, which stands still at its type's end.
pub fn one_more(count: u64) -> u64
    ensures { result ≡ risen count }
{
    count.saturating_add(1)
}

// Whether the call of a number is to fail. A number past those of 32 bits is in no list.
fn is_number_among(failing: &[u32], number: u64) -> bool
    ensures { result ≡ is_among failing.now number }
{
    match u32::try_from(number) {
        Ok(number) => failing.contains(&number),
        Err(_) => false,
    }
}
