//! What holds of frames. Each function does nothing: its contract is the law, which a proof elsewhere can cite.

ghost use Rattle.ffv1_frame.specs.Laws.{CellsCover, FilmFrameIsPicture, FilmTilesStand, FrameIsCut, PictureFits, PictureIsOne};

/// Slices that were put together are cut off again.
pub fn frames_are_cut()
    ensures { FrameIsCut }
{
    cook_bits::laws::parity_leaves_zero();
}

/// Boxes that cover each cell of a grid once are tiles that cover its picture once.
pub fn cells_cover_pixels()
    ensures { CellsCover }
{}

/// The footed slices of the writer's grid, in order, mean the picture that they were made of.
pub fn n6()
    ensures { FilmFrameIsPicture }
{
    cook_bits::laws::parity_leaves_zero();
    dpx_packing::tile_laws::tiles_hold_their_pixels();
    ffv1_params::laws::film_is_sound();
    ffv1_params::laws::film_rows();
    ffv1_slice::laws::n5();
    ffv1_slice::laws::slices_begin();
}

/// The tiles of the writer's grid: they are whole lines in order, which `dpx_packing`'s laws say stand in a buffer as they are;
/// they cover the picture; their samples are tiles that `ffv1_slice` codes, in fewer bytes than a footer can tell; and the
/// parts of a written frame have these tiles.
pub fn film_tiles()
    ensures { FilmTilesStand }
{
    cook_bits::laws::parity_leaves_zero();
    dpx_packing::tile_laws::tiles_hold_their_pixels();
    range_coder::laws::coded_are_bytes();
    ffv1_params::laws::film_is_sound();
    ffv1_params::laws::film_rows();
    ffv1_slice::laws::n5();
    ffv1_slice::laws::slices_begin();
    ffv1_slice::laws::heads_are_one();
}

/// Bytes mean one picture at most, whatever the sound parameters and the grid.
pub fn pictures_are_one()
    ensures { PictureIsOne }
{
    dpx_packing::tile_laws::tiles_tell_the_picture();
    ffv1_slice::laws::n5();
    ffv1_slice::laws::heads_are_one();
}

/// A picture that bytes mean has the size of the grid, and its colours the bits of the parameters.
pub fn pictures_fit()
    ensures { PictureFits }
{
    dpx_packing::tile_laws::tiles_tell_the_picture();
}
