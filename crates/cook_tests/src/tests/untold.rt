// A shelf that tells nothing, and lists what no disk would: in any order, twice, with names that aren't relative, with
// lengths that aren't true. Each file has its offence, and the first in byte order of names is told.
use super::orders::{ends, is};
use cook_bits::{Name, NoMemory};
use cook_pack::{PackError, RefuseWhy, plan};
use shelf_core::{CreateError, Entry, Shelf, ShelfError};
use std::alloc::Global;
use std::test::Fail;

// A name, whether it is a plain file, the length that is told for it, and how many bytes it gives.
type Found<'a> = (&'a str, bool, Option<u64>, u64);

// Lists what it was given, in that order, then as many empty files as `more` says.
#[derive(Drop)]
struct Untold<'a> {
    alloc: Global,
    found: &'a [Found<'a>],
    more: u32,
    starved: u64,
}

// A name of seven digits.
fn numbered(alloc: Global, number: u32) -> Result<Name, NoMemory> {
    let mut digits = [b'0'; 7];
    let mut rest = number;
    for digit in digits.iter_mut().rev() {
        *digit = b'0' + (rest % 10) as u8;
        rest /= 10;
    }
    Name::copy(alloc, str::from_utf8(&digits).unwrap_or(""))
}

fn entries(alloc: Global, found: &[Found<'_>], more: u32) -> Result<Vec<Entry>, NoMemory> {
    let mut entries = Vec::new(alloc);
    for (name, plain, _, _) in found {
        let name = Name::copy(alloc, name)?;
        entries.push(Entry {
            name,
            plain: *plain,
        })?;
    }
    for number in 0..more {
        let name = numbered(alloc, number)?;
        entries.push(Entry { name, plain: true })?;
    }
    Ok(entries)
}

impl Untold<'_> {
    // The length that is told for a file under `d`, and how many bytes it gives.
    fn look_up(&self, name: &str) -> Option<(Option<u64>, u64)> {
        for (other, _, said, given) in self.found {
            if name.strip_prefix("d/") == Some(*other) {
                return Some((*said, *given));
            }
        }
        None
    }
}

#[tactic(auto, unfolding(shelf_core::specs::Told::IsTold, shelf_core::specs::Told::IsFree, shelf_core::specs::Told::IsNotUnsealed, shelf_core::specs::Told::with_file, shelf_core::specs::Told::with_unsealed, shelf_core::specs::Told::without_unsealed))]
impl Shelf for Untold<'_> {
    ghost use Rattle.std.specs.Prelude.{None};
    ghost use Rattle.std.proofs.Common.{refl};
    ghost use Rattle.shelf_core.specs.Untold.{has_file, no_content};

    ghost files = { λ shelf. None };

    ghost unsealed = { λ shelf. None };

    ghost faults = { λ shelf. 0 };

    ghost starved = { λ shelf. shelf.starved };

    ghost told_together = { λ shelf. refl };

    ghost contents_are_bytes = { λ shelf. no_content };

    ghost unsealed_is_there = { λ shelf name told unsealed. has_file name };

    fn list(&mut self, _root: &str) -> Result<Vec<Entry>, ShelfError> {
        match entries(self.alloc, self.found, self.more) {
            Ok(entries) => Ok(entries),
            Err(NoMemory) => {
                self.starved = self.starved.saturating_add(1);
                Err(ShelfError::NoMemory)
            }
        }
    }

    fn len(&mut self, name: &str) -> Result<Option<u64>, ShelfError> {
        Ok(match self.look_up(name) {
            Some((said, _)) => said,
            None if self.more > 0 => Some(0),
            None => None,
        })
    }

    fn read_at(&mut self, name: &str, at: u64, buf: &mut [u8]) -> Result<usize, ShelfError> {
        let given = match self.look_up(name) {
            Some((_, given)) => given,
            None => 0,
        };
        let rest = given.saturating_sub(at);
        Ok(rest.min(buf.len() as u64) as usize)
    }

    fn create(&mut self, _name: &str) -> Result<(), CreateError> {
        Ok(())
    }

    fn make_folder(&mut self, _name: &str) -> Result<(), ShelfError> {
        Ok(())
    }

    fn append(&mut self, _name: &str, _bytes: &[u8]) -> Result<(), ShelfError> {
        Ok(())
    }

    fn seal(&mut self, _name: &str) -> Result<(), ShelfError> {
        Ok(())
    }
}

const HALF: Option<u64> = Some(1 << 49);

// What is listed, and how packing it ends. Another file stands beside each offence, so that its name isn't the only one.
const ENDINGS: [([Found<'static>; 2], u8, &str); 14] = [
    (
        [("b", false, None, 0), ("a", true, HALF, 0)],
        2,
        "cook: b: not a plain file\n",
    ),
    (
        [("b", true, None, 0), ("a//", true, HALF, 0)],
        2,
        "cook: a//: bad name\n",
    ),
    (
        [("a", true, HALF, 0), ("a", true, HALF, 0)],
        2,
        "cook: a: listed twice\n",
    ),
    (
        [("a/b", true, HALF, 0), ("a", true, HALF, 0)],
        2,
        "cook: a/b: under a file\n",
    ),
    (
        [("b", true, Some((1 << 49) + 1), 0), ("a", true, HALF, 0)],
        2,
        "cook: b: too large\n",
    ),
    (
        [("b.DpX", true, HALF, 0), ("a", true, HALF, 0)],
        2,
        "cook: b.DpX: not built yet\n",
    ),
    (
        [(".wav", true, HALF, 0), ("a", true, HALF, 0)],
        2,
        "cook: .wav: not built yet\n",
    ),
    (
        [("b", true, HALF, 0), ("a", true, None, 0)],
        9,
        "cook: a: not there\n",
    ),
    (
        [
            ("b", true, Some(300000), 70000),
            ("a", true, Some(5000), 5000),
        ],
        8,
        "cook: b: changed from 300000 to 70000 bytes\n",
    ),
    // Each breaks two rules or more.
    (
        [("/.dpx", false, None, 0), ("a", true, HALF, 0)],
        2,
        "cook: /.dpx: not a plain file\n",
    ),
    (
        [("a", false, HALF, 0), ("a", true, HALF, 0)],
        2,
        "cook: a: not a plain file\n",
    ),
    (
        [("a/.dpx", true, None, 0), ("a", true, HALF, 0)],
        2,
        "cook: a/.dpx: under a file\n",
    ),
    (
        [("b.dpx", true, None, 0), ("a", true, HALF, 0)],
        9,
        "cook: b.dpx: not there\n",
    ),
    (
        [("b.dpx", true, Some(1 << 50), 0), ("a", true, HALF, 0)],
        2,
        "cook: b.dpx: too large\n",
    ),
];

#[test]
fn the_first_file_that_stops_a_pack_is_named(rt: HostRuntime) -> Result<(), Fail> {
    for (found, number, line) in &ENDINGS {
        let mut shelf = Untold {
            alloc: rt.alloc(),
            found,
            more: 0,
            starved: 0,
        };
        ends(&rt, rt.alloc(), &mut shelf, "pack d p", *number, line)?;
    }
    Ok(())
}

#[test]
fn a_million_files_are_the_most(rt: HostRuntime) -> Result<(), Fail> {
    for more in [1_000_000, 1_000_001] {
        let mut shelf = Untold {
            alloc: rt.alloc(),
            found: &[],
            more,
            starved: 0,
        };
        match plan(rt.alloc(), &mut shelf, "d") {
            Ok(plan) => is(&rt, plan.files(), 1_000_000),
            Err(PackError::Refused { name, why }) => {
                is(&rt, more, 1_000_001);
                is(&rt, name.as_str(), "1000000");
                is(&rt, why, RefuseWhy::TooManyFiles);
            }
            Err(error) => return Err(Fail::from(error)),
        }
    }
    Ok(())
}

#[test]
fn files_in_the_profile_are_planned(rt: HostRuntime) -> Result<(), Fail> {
    let found = [
        ("b/dpx", true, HALF, 0),
        ("a.dpx.txt", true, HALF, 0),
        ("b!", true, Some(0), 0),
    ];
    let mut shelf = Untold {
        alloc: rt.alloc(),
        found: &found,
        more: 0,
        starved: 0,
    };
    let plan = plan(rt.alloc(), &mut shelf, "d")?;
    is(&rt, plan.files(), 3);
    is(&rt, plan.tracks(), 0);
    is(&rt, plan.root(), "d");
    let table = [("a.dpx.txt", 1 << 49), ("b!", 0), ("b/dpx", 1 << 49)];
    for (file, (name, len)) in plan.as_slice().iter().zip(table) {
        is(&rt, file.name.as_str(), name);
        is(&rt, file.length, len);
    }
    Ok(())
}
