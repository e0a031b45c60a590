ghost use Rattle.std.specs.Prelude.{◌≤◌, [], IfOk};
ghost use Rattle.shelf_reader.specs.Keeping.{known, IsReady, Reads};
ghost use Rattle.shelf_reader.specs.Readings.{Answers};
ghost use Rattle.matroska_read.specs.Walk.{walked_children};
ghost use Rattle.matroska_read.specs.Outline.{visit_attachments};
ghost use Rattle.matroska_read.specs.Inside.{AllEndBy, KeepsInside};

use crate::attached::read_file;
use crate::element::Ebml;
use crate::error::Reading;
use crate::files::AttachedFiles;
use crate::parts::Element;
use matroska_names::ids::ATTACHED_FILE;
use shelf_core::Shelf;
use shelf_reader::{Children, Reader, walk};

// The files of the Attachments, as far as they were read.
#[tactic(auto, using(shelf_reader::specs::ReadingLaws::reading_laws, shelf_reader::specs::KeepingLaws::keeping_laws, crate::proofs::FileLaws::ends_laws), unfolding(crate::specs::Outline::visit_attachments))]
impl Children<Ebml> for AttachedFiles {
    ghost use Rattle.matroska_read.specs.Outline.{visit_attachments};
    ghost use Rattle.matroska_read.specs.Inside.{AllEndBy};

    ghost visit = { visit_attachments };

    ghost Fits = { AllEndBy };

    fn with_child<S: Shelf>(
        self,
        reader: &mut Reader<'_, '_, S>,
        child: Element,
    ) -> Reading<AttachedFiles> {
        let mut files = self;
        if child.id != ATTACHED_FILE {
            return Ok(files);
        }
        let file = read_file(reader, child)?;
        files.push(file)?;
        Ok(files)
    }
}

/// The files of Attachments.
#[tactic(auto, using(crate::proofs::FileLaws::ends_laws))]
pub fn read_attachments<S: Shelf>(
    reader: &mut Reader<'_, '_, S>,
    element: Element,
) -> Reading<AttachedFiles>
    requires ready { IsReady S.Shelf reader.old }
    requires inside { KeepsInside reader.old.len element }
    ensures exact { Answers (known S.Shelf reader.old) (walked_children visit_attachments element []) result }
    ensures ends { IfOk result (AllEndBy reader.old.len) }
    ensures reads { Reads S.Shelf reader.old reader.new result }
{
    let files = AttachedFiles::new(reader.alloc());
    walk::<S, Ebml, AttachedFiles>(reader, files, element.start, element.end)
}
