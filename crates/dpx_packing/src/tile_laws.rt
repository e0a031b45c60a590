//! What holds of tiles and of the buffer in which they stand. Each function does nothing: its contract is the law,
//! which a proof elsewhere can cite.

ghost use Rattle.dpx_packing.specs.TileLaws.{PixelsCountByLine, TilesFill, TilesHoldTheirPixels, TilesTellThePicture, WholeLinesStand};

/// The colour of a pixel stands in its tile at the pixel's own place there, for each pixel of a tile.
pub fn tiles_hold_their_pixels()
    ensures { TilesHoldTheirPixels }
{}

/// Tiles that cover a picture once have as many samples as it.
pub fn tiles_fill()
    ensures { TilesFill }
{}

/// Two pictures that give one buffer are the same: so `from_tiles` undoes `to_tiles`.
pub fn tiles_tell_the_picture()
    ensures { TilesTellThePicture }
{}

/// The buffer of tiles of whole lines in order is the picture's samples as they stand.
pub fn whole_lines_stand()
    ensures { WholeLinesStand }
{}

/// Pixels are counted line by line, and no two are at one place.
pub fn pixels_count_by_line()
    ensures { PixelsCountByLine }
{}
