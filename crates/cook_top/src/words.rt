ghost use Rattle.std.specs.Prelude.{◌≡◌, None, Some, map, string_bytes, IfOk, OnErr};
ghost use Rattle.cook_top.specs.Orders.{is_name, begins_with_dash, ends_with_slash, without_end_slashes, is_file_name, pack_order_of, restore_order_of, command_order_of, order_of};
ghost use Rattle.cook_top.specs.Shown.{IsInBounds, order_shown};

use thiserror::Error;

/// The most bytes of a name on the command line.
const MOST_NAME_BYTES: usize = 4096;

/// The workers that code or decode frames, where no option says otherwise.
const USUAL_WORKERS: u32 = 4;

/// Frames a second, where no option says otherwise.
const USUAL_RATE: u32 = 24;

/// What the words of a command line order.
#[derive(Clone, Copy, Debug, PartialEq, Eq)]
pub enum Order<'a> {
    /// Put the files under the root `dir`, which has lost its slashes at the end, into the package `pkg`. Frames are coded
    /// by so many workers, and shown at `rate` a second.
    Pack {
        workers: u32,
        rate: u32,
        dir: &'a str,
        pkg: &'a str,
    },
    /// Give the files of the package `pkg` back under the root `dir`, which has lost its slashes at the end. Frames are
    /// decoded by so many workers.
    Restore {
        workers: u32,
        pkg: &'a str,
        dir: &'a str,
    },
}

/// The words are no order.
#[derive(Clone, Copy, Debug, PartialEq, Eq, Error)]
#[error("usage")]
pub struct Usage;

// Whether the text begins with a dash, as an option does.
fn begins_with_dash(text: &str) -> bool
    ensures { result ≡ begins_with_dash text.now }
{
    text.starts_with('-')
}

// Whether the text ends with a slash.
fn ends_with_slash(text: &str) -> bool
    ensures { result ≡ ends_with_slash text.now }
{
    text.ends_with('/')
}

// Whether the word is a name: 1 to 4,096 bytes, none of them zero, with no dash at its start.
fn is_name(word: &str) -> bool
    ensures { result ≡ is_name word.now }
{
    !word.is_empty()
        && word.len() <= MOST_NAME_BYTES
        && !word.as_bytes().contains(&0)
        && !begins_with_dash(word)
}

// Whether the word is a name that no slash ends.
fn is_file_name(word: &str) -> bool
    ensures { result ≡ is_file_name word.now }
{
    is_name(word) && !ends_with_slash(word)
}

// The text without the slashes at its end.
fn without_end_slashes(text: &str) -> &str
    ensures { result.now ≡ without_end_slashes text.now }
{
    text.trim_end_matches("/")
}

// The order to pack DIR into PKG.
#[tactic(auto, unfolding(crate::specs::Orders::pack_order_of))]
fn pack_order<'a>(dir: &'a str, pkg: &'a str) -> Result<Order<'a>, Usage>
    ensures order { IfOk result (λ order. pack_order_of dir.now pkg.now ≡ Some (order_shown order)) }
    ensures usage { OnErr result (pack_order_of dir.now pkg.now ≡ None) }
    ensures bounds { IfOk result IsInBounds }
{
    if !is_name(dir) || !is_file_name(pkg) {
        return Err(Usage);
    }
    Ok(Order::Pack {
        workers: USUAL_WORKERS,
        rate: USUAL_RATE,
        dir: without_end_slashes(dir),
        pkg,
    })
}

// The order to restore PKG into DIR.
#[tactic(auto, unfolding(crate::specs::Orders::restore_order_of))]
fn restore_order<'a>(pkg: &'a str, dir: &'a str) -> Result<Order<'a>, Usage>
    ensures order { IfOk result (λ order. restore_order_of pkg.now dir.now ≡ Some (order_shown order)) }
    ensures usage { OnErr result (restore_order_of pkg.now dir.now ≡ None) }
    ensures bounds { IfOk result IsInBounds }
{
    if !is_file_name(pkg) || !is_name(dir) {
        return Err(Usage);
    }
    Ok(Order::Restore {
        workers: USUAL_WORKERS,
        pkg,
        dir: without_end_slashes(dir),
    })
}

// The order of a command and the two words behind it.
#[tactic(auto, unfolding(crate::specs::Orders::command_order_of))]
fn command_order<'a>(command: &str, first: &'a str, second: &'a str) -> Result<Order<'a>, Usage>
    ensures order { IfOk result (λ order. command_order_of command.now first.now second.now ≡ Some (order_shown order)) }
    ensures usage { OnErr result (command_order_of command.now first.now second.now ≡ None) }
    ensures bounds { IfOk result IsInBounds }
{
    if command == "pack" {
        return pack_order(first, second);
    }
    if command == "restore" {
        return restore_order(first, second);
    }
    Err(Usage)
}

/// Reads the words of a command line. They are `pack`, DIR and PKG, or `restore`, PKG and DIR: two names of 1 to 4,096
/// bytes, with no byte zero and no dash at the start. DIR loses the slashes at its end, and PKG has none there. All other
/// words are no order. It takes no memory.
pub fn read_words(words: &[String]) -> Result<Order<'_>, Usage>
    ensures order { IfOk result (λ order. order_of (map string_bytes words.now) ≡ Some (order_shown order)) }
    ensures usage { OnErr result (order_of (map string_bytes words.now) ≡ None) }
    ensures bounds { IfOk result IsInBounds }
{
    if words.len() != 3 {
        return Err(Usage);
    }
    command_order(words[0].as_str(), words[1].as_str(), words[2].as_str())
}
