ghost use Rattle.std.specs.Prelude.{◌≡◌, ◌↔◌, ℕ, List, [], ◌∷◌, ◌++◌, None, OnOk, OnErr, IfOk, IfErr, filter, not};
ghost use Rattle.std.specs.Option.{option_copied};
ghost use Rattle.cook_bits.specs.Bits.{AreBytes};
ghost use Rattle.cook_bits.specs.Names.{rest_behind, relative_to, non_empty, files_under, is_same_name};
ghost use Rattle.shelf_core.specs.Listing.{plain_entries};
ghost use Rattle.shelf_core.specs.Told.{HasFile, IsFree, IsNotUnsealed, with_file, grown, with_unsealed};
ghost use Rattle.shelf_core.specs.Store.{IsAscending, AreOfBytes, AreThere, StandsAt, BelongsAt, bytes_in, told_of};

use crate::{CreateError, Entry};
use cook_bits::{Bytes, Name, NoMemory};
use std::alloc::Global;

// Where the file of a name stands, or would stand.
fn place_of(files: &[(Name, Bytes)], name: &str) -> Result<usize, usize>
    requires { IsAscending files.now }
    ensures found { IfOk result (StandsAt files.now name.now) }
    ensures free { IfErr result (BelongsAt files.now name.now) }
{
    files.binary_search_by(|file| file.0.as_str().cmp(name))
}

/// The bytes of the file of a name, where there is one.
pub fn bytes_of<'a>(files: &'a [(Name, Bytes)], name: &str) -> Option<&'a [u8]>
    requires { IsAscending files.now }
    ensures { option_copied result ≡ bytes_in files.now name.now }
{
    match place_of(files, name) {
        Ok(place) => Some(files[place].1.as_slice()),
        Err(_) => None,
    }
}

// What stands behind a front.
fn behind<'a>(front: &str, name: &'a str) -> Option<&'a str>
    ensures { option_copied result ≡ rest_behind front.now name.now }
{
    name.strip_prefix(front)
}

// What stands behind a slash, where that is something.
#[tactic(auto, using(crate::proofs::Relative::relative_laws))]
fn relative_path(path: &str) -> Option<&str>
    ensures { option_copied result ≡ non_empty (rest_behind (47 ∷ []) path.now) }
{
    let name = behind("/", path)?;
    if name.is_empty() { None } else { Some(name) }
}

// The name relative to a root, where it stands under it.
#[tactic(auto, using(crate::proofs::Relative::relative_laws))]
fn relative<'a>(root: &str, name: &'a str) -> Option<&'a str>
    ensures { option_copied result ≡ relative_to root.now name.now }
{
    match behind(root, name) {
        Some(path) => relative_path(path),
        None => None,
    }
}

/// Lists the files under a root.
#[tactic(auto, using(crate::proofs::Relative::listing_laws))]
pub fn entries_under(
    alloc: Global,
    files: &[(Name, Bytes)],
    root: &str,
) -> Result<Vec<Entry>, NoMemory>
    ensures { IfOk result (λ entries. entries.items ≡ plain_entries (files_under root.now files.now)) }
{
    let mut entries = Vec::new(alloc);
    for file in files {
        if let Some(name) = relative(root, file.0.as_str()) {
            let name = Name::copy(alloc, name)?;
            entries.push(Entry { name, plain: true })?;
        }
    }
    Ok(entries)
}

/// Adds an empty file, whose name is then the last of the unsealed. A refusal changes nothing.
#[tactic(auto, using(crate::proofs::StoreLaws::store_laws))]
pub fn add_file(
    alloc: Global,
    files: &mut Vec<(Name, Bytes)>,
    unsealed: &mut Vec<Name>,
    name: &str,
) -> Result<(), CreateError>
    requires ascending { IsAscending files.old.items }
    requires there { AreThere unsealed.old.items files.old.items }
    requires bytes { AreOfBytes files.old.items }
    ensures ascending { IsAscending files.new.items }
    ensures there { AreThere unsealed.new.items files.new.items }
    ensures bytes { AreOfBytes files.new.items }
    ensures free { OnOk result (bytes_in files.old.items name.now ≡ None) }
    ensures created { OnOk result (told_of files.new.items ≡ with_file (told_of files.old.items) name.now []) }
    ensures unsealed { OnOk result (unsealed.new.items ≡ unsealed.old.items ++ name.now ∷ []) }
    ensures exists { result ≡ Err CreateError.Exists → HasFile (told_of files.old.items) name.now }
    ensures in_the_way { HasFile (told_of files.old.items) name.now → result ≡ Err CreateError.Exists }
    ensures never { result ≡ Err CreateError.Failed → ⊥ }
    ensures files_kept { OnErr result (files.new.items ≡ files.old.items) }
    ensures unsealed_kept { OnErr result (unsealed.new.items ≡ unsealed.old.items) }
{
    let place = match place_of(files.as_slice(), name) {
        Ok(_) => return Err(CreateError::Exists),
        Err(place) => place,
    };
    let file = (Name::copy(alloc, name)?, Bytes::new(alloc));
    let added = Name::copy(alloc, name)?;
    unsealed.push(added).map_err(|_| CreateError::NoMemory)?;
    if files.insert(place, file).is_err() {
        let _ = unsealed.pop();
        return Err(CreateError::NoMemory);
    }
    Ok(())
}

/// Adds bytes at the end of a file. A refusal changes nothing.
#[tactic(auto, using(crate::proofs::StoreLaws::store_laws))]
pub fn append_to(files: &mut Vec<(Name, Bytes)>, name: &str, bytes: &[u8]) -> Result<(), NoMemory>
    requires ascending { IsAscending files.old.items }
    requires there { HasFile (told_of files.old.items) name.now }
    requires bytes { AreOfBytes files.old.items }
    ensures ascending { IsAscending files.new.items }
    ensures there { (names : List (List ℕ)) → AreThere names files.old.items → AreThere names files.new.items }
    ensures bytes { AreOfBytes files.new.items }
    ensures ok { OnOk result (told_of files.new.items ≡ grown (told_of files.old.items) name.now bytes.now) }
    ensures err { OnErr result (files.new.items ≡ files.old.items) }
{
    match place_of(files.as_slice(), name) {
        Ok(place) => files[place].1.append(bytes),
        Err(_) => Ok(()),
    }
}

/// Takes a name out of a list of names.
pub fn drop_name(names: &mut Vec<Name>, name: &str)
    ensures { names.new.items ≡ filter (λ other. not (is_same_name name.now other)) names.old.items }
{
    names.retain(|other| name != other.as_str());
}

// The numbers of a slice of bytes are bytes: what its type says.
fn are_bytes(bytes: &[u8])
    ensures { AreBytes bytes.now }
{
    let _ = bytes;
}

/// The contents of files are bytes: what the type of each says. It computes nothing.
pub fn hold_bytes(files: &[(Name, Bytes)])
    ensures { AreOfBytes files.now }
{
    for file in files {
        are_bytes(file.1.as_slice());
    }
}
