// The samples of a picture, moved between its lines and a buffer in which they stand tile after tile.

ghost use Rattle.std.specs.Prelude.{◌≡◌, ◌^◌, ◌*◌, ◌+◌, ◌<◌, ◌≤◌, All, length, take};
ghost use Rattle.std.specs.List.{sum_by};
ghost use Rattle.dpx_header.specs.Layout.{IsWellFormed, sample_count};
ghost use Rattle.dpx_packing.specs.Tiles.{CoverOnce, IsInside, are_lines, has_lines, place_of, tile_after_tile, tile_at, tile_samples, tile_size};
ghost use Rattle.dpx_packing.specs.Moves.{KeepsOthers};

use crate::Tile;
use dpx_header::Layout;
use dpx_header::laws::layouts_are_bounded;

// How many samples a tile has.
fn tile_len(layout: &Layout, tile: &Tile) -> usize
    requires well_formed { IsWellFormed layout.now }
    requires inside { IsInside layout.now.width layout.now.height tile.now }
    ensures { result ≡ tile_size tile.now }
{
    tile.height as usize * (3 * tile.width as usize)
}

// Where a line of a tile begins in the samples of the picture.
fn line_start(layout: &Layout, tile: &Tile, row: usize) -> usize
    requires well_formed { IsWellFormed layout.now }
    requires inside { IsInside layout.now.width layout.now.height tile.now }
    requires row { row < tile.now.height }
    ensures exact { result ≡ place_of layout.now.width tile.now.x (tile.now.y + row) 0 }
    ensures high { result + 3 * tile.now.width ≤ sample_count layout.now }
{
    3 * ((tile.y as usize + row) * layout.width as usize + tile.x as usize)
}

// Copies a tile out of the picture.
fn take_tile(layout: &Layout, tile: &Tile, samples: &[u16], part: &mut [u16])
    requires well_formed { IsWellFormed layout.now }
    requires inside { IsInside layout.now.width layout.now.height tile.now }
    requires sample_len { length samples.now ≡ sample_count layout.now }
    requires part_len { length part.old ≡ tile_size tile.now }
    ensures { part.new ≡ tile_samples layout.now.width samples.now tile.now }
{
    let wide = 3 * tile.width as usize;
    for row in 0..tile.height as usize {
        let from = line_start(layout, tile, row);
        let to = row * wide;
        part[to..to + wide].copy_from_slice(&samples[from..from + wide]);
    }
}

// Copies a tile into the picture, which stays as it is elsewhere.
fn put_tile(layout: &Layout, tile: &Tile, part: &[u16], samples: &mut [u16])
    requires well_formed { IsWellFormed layout.now }
    requires inside { IsInside layout.now.width layout.now.height tile.now }
    requires part_len { length part.now ≡ tile_size tile.now }
    requires sample_len { length samples.old ≡ sample_count layout.now }
    ensures put { tile_samples layout.now.width samples.new tile.now ≡ part.now }
    ensures kept { KeepsOthers layout.now.width tile.now samples.old samples.new }
{
    let wide = 3 * tile.width as usize;
    for row in 0..tile.height as usize {
        let to = line_start(layout, tile, row);
        let from = row * wide;
        samples[to..to + wide].copy_from_slice(&part[from..from + wide]);
    }
}

// Whether the tile has whole lines, from a height on.
fn has_whole_lines(layout: &Layout, tile: &Tile, from: u32) -> bool
    ensures { result ≡ has_lines layout.now.width from tile.now }
{
    tile.x == 0 && tile.width == layout.width && tile.y == from
}

/// Whether the tiles have whole lines of the picture, in order, so that its samples and the buffer are the same. It takes no
/// memory.
pub fn are_whole_lines(layout: &Layout, tiles: &[Tile]) -> bool
    requires well_formed { IsWellFormed layout.now }
    requires inside { All (λ tile. IsInside layout.now.width layout.now.height tile) tiles.now }
    ensures { result ≡ are_lines layout.now.width layout.now.height 0 tiles.now }
{
    let mut next = 0;
    for i in 0..tiles.len() {
        if !has_whole_lines(layout, &tiles[i], next) {
            return false;
        }
        next += tiles[i].height;
    }
    next == layout.height
}

// Where the tile at a place of the list ends in the buffer, if it begins where those before it end.
fn part_end(layout: &Layout, tiles: &[Tile], i: usize, at: usize) -> usize
    requires well_formed { IsWellFormed layout.now }
    requires once { CoverOnce layout.now.width layout.now.height tiles.now }
    requires listed { i < length tiles.now }
    requires at { at ≡ sum_by tile_size (take i tiles.now) }
    ensures exact { result ≡ at + tile_size (tile_at tiles.now i) }
    ensures next { result ≡ sum_by tile_size (take (i + 1) tiles.now) }
    ensures high { result ≤ sample_count layout.now }
{
    layouts_are_bounded();
    at + tile_len(layout, &tiles[i])
}

fn take_tiles(layout: &Layout, tiles: &[Tile], samples: &[u16], buffer: &mut [u16])
    requires well_formed { IsWellFormed layout.now }
    requires once { CoverOnce layout.now.width layout.now.height tiles.now }
    requires sample_len { length samples.now ≡ sample_count layout.now }
    requires buffer_len { length buffer.old ≡ sample_count layout.now }
    ensures { buffer.new ≡ tile_after_tile layout.now.width tiles.now samples.now }
{
    let mut at = 0;
    for i in 0..tiles.len() {
        let end = part_end(layout, tiles, i, at);
        take_tile(layout, &tiles[i], samples, &mut buffer[at..end]);
        at = end;
    }
}

fn put_tiles(layout: &Layout, tiles: &[Tile], buffer: &[u16], samples: &mut [u16])
    requires well_formed { IsWellFormed layout.now }
    requires once { CoverOnce layout.now.width layout.now.height tiles.now }
    requires buffer_len { length buffer.now ≡ sample_count layout.now }
    requires sample_len { length samples.old ≡ sample_count layout.now }
    ensures { tile_after_tile layout.now.width tiles.now samples.new ≡ buffer.now }
{
    let mut at = 0;
    for i in 0..tiles.len() {
        let end = part_end(layout, tiles, i, at);
        put_tile(layout, &tiles[i], &buffer[at..end], samples);
        at = end;
    }
}

/// Copies the samples of a picture, which stand line by line, into a buffer in which they stand tile after tile, each
/// tile line by line. The tiles cover the picture once. It takes no memory.
pub fn to_tiles(layout: &Layout, tiles: &[Tile], samples: &[u16], buffer: &mut [u16])
    requires well_formed { IsWellFormed layout.now }
    requires once { CoverOnce layout.now.width layout.now.height tiles.now }
    requires sample_len { length samples.now ≡ sample_count layout.now }
    requires buffer_len { length buffer.old ≡ sample_count layout.now }
    ensures { buffer.new ≡ tile_after_tile layout.now.width tiles.now samples.now }
{
    if are_whole_lines(layout, tiles) {
        buffer.copy_from_slice(samples);
    } else {
        take_tiles(layout, tiles, samples, buffer);
    }
}

/// Copies the samples of a picture back out of the buffer into which `to_tiles` copies them. The tiles cover the
/// picture once. It takes no memory.
pub fn from_tiles(layout: &Layout, tiles: &[Tile], buffer: &[u16], samples: &mut [u16])
    requires well_formed { IsWellFormed layout.now }
    requires once { CoverOnce layout.now.width layout.now.height tiles.now }
    requires buffer_len { length buffer.now ≡ sample_count layout.now }
    requires sample_len { length samples.old ≡ sample_count layout.now }
    ensures { tile_after_tile layout.now.width tiles.now samples.new ≡ buffer.now }
{
    if are_whole_lines(layout, tiles) {
        samples.copy_from_slice(buffer);
    } else {
        put_tiles(layout, tiles, buffer, samples);
    }
}
