ghost use Rattle.std.specs.Prelude.{◌≡◌, ◌≤◌, length};
ghost use Rattle.shelf_reader.specs.Keeping.{known, IsReady, Reads};
ghost use Rattle.shelf_reader.specs.Readings.{Answers};
ghost use Rattle.matroska_read.specs.Inside.{KeepsInside};
ghost use Rattle.matroska_read.specs.Numbers.{number_of, number_read};

use crate::error::{Reading, shape};
use crate::parts::Element;
use byteorder::{BigEndian, ByteOrder};
use shelf_core::Shelf;
use shelf_reader::Reader;

/// The longest Unsigned Integer Element, in bytes (RFC 8794, section 7.2).
pub const LONGEST_NUMBER: u64 = 8;

/// What a content of at most eight bytes says as a number: an empty one says its default.
pub fn number_of(when_empty: u64, content: &[u8]) -> u64
    requires { length content.now ≤ 8 }
    ensures { result ≡ number_of when_empty content.now }
{
    if content.is_empty() {
        when_empty
    } else {
        BigEndian::read_uint(content, content.len())
    }
}

/// The number of an element whose default is 0.
#[tactic(auto, using(shelf_reader::specs::ReadingLaws::reading_laws, shelf_reader::specs::KeepingLaws::keeping_laws, crate::proofs::NumberLaws::number_laws), unfolding(crate::specs::Numbers::number_read))]
pub fn read_number<S: Shelf>(reader: &mut Reader<'_, '_, S>, element: Element) -> Reading<u64>
    requires ready { IsReady S.Shelf reader.old }
    requires inside { KeepsInside reader.old.len element }
    ensures exact { Answers (known S.Shelf reader.old) (number_read element) result }
    ensures reads { Reads S.Shelf reader.old reader.new result }
{
    if element.end - element.start > LONGEST_NUMBER {
        return Err(shape(element.place));
    }
    reader.show(element.start, element.end)?;
    Ok(number_of(0, reader.part(element.start, element.end)))
}
