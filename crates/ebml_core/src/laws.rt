//! What holds of elements as they are written and read. Each function does nothing: its contract is
//! the law, which a proof elsewhere can cite.

ghost use Rattle.ebml_core.specs.Laws.{WrittenHeadIsRead, WrittenSizeIsRead, SpelledIdIsRead, SpelledSizeIsRead, ReadIdIsSpelled, ReadSizeIsSpelled, HeadStays, TwelveBytesTell};

/// The head that is written is the head that is read, whatever follows it.
#[tactic(auto, using(crate::proofs::SpelledHeads::written_head))]
pub fn written_head_is_read()
    ensures { WrittenHeadIsRead }
{}

/// The size that is written is the size that is read, whatever follows it.
#[tactic(auto, using(crate::proofs::SpelledHeads::written_size))]
pub fn written_size_is_read()
    ensures { WrittenSizeIsRead }
{}

/// Each spelling of an identifier and of a size is read, whatever follows it.
#[tactic(auto, using(crate::proofs::SpelledHeads::spelled_id, crate::proofs::SpelledHeads::spelled_size))]
pub fn spellings_are_read()
    ensures id { SpelledIdIsRead }
    ensures size { SpelledSizeIsRead }
{}

/// What is read as an identifier or a size is the spelling of it.
#[tactic(auto, using(crate::proofs::OnlySpelled::read_size_is_spelled))]
pub fn only_spellings_are_read()
    ensures id { ReadIdIsSpelled }
    ensures size { ReadSizeIsSpelled }
{}

/// A head that bytes begin with stays the same where more bytes follow.
#[tactic(auto, using(crate::specs::Prefixes::head_stays))]
pub fn head_stays()
    ensures { HeadStays }
{}

/// The first twelve bytes tell whether there is a head, and which.
#[tactic(auto, using(crate::specs::Prefixes::twelve_bytes_tell))]
pub fn twelve_bytes_tell()
    ensures { TwelveBytesTell }
{}
