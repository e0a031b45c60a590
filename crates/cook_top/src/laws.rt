//! What holds of the definitions of packages, whatever the directory.

ghost use Rattle.cook_top.specs.RoundTrip.{PackageMeansDirectory, PackageShowsDirectory};

use matroska_read::laws::spelled_is_outline;

/// The outline of the package of a directory in the profile is one defined value: the directory's files as attachments in their
/// order, each with its name and its content, and the side data of their records behind them.
pub fn n10()
    ensures shown { PackageShowsDirectory }
{
    spelled_is_outline();
}

/// The package of a directory in the profile means all of its files, byte for byte, and no fault.
pub fn h3()
    ensures { PackageMeansDirectory }
{
    spelled_is_outline();
}
