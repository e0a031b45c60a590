use cook_bits::{Bytes, Name, Named};

/// What a file is to the package that holds it.
#[derive(Clone, Copy, Debug, PartialEq, Eq)]
pub enum Kind {
    /// A file that is attached as it is.
    Other,
    /// A frame of a video track, with its place in the track, counted from 0.
    Frame { track: u8, index: u32 },
    /// A wave, which is an audio track.
    Wave { track: u8 },
}

/// What the side data says of a file.
#[derive(Debug, Drop)]
pub struct FileRecord {
    /// The relative name.
    pub name: Name,
    /// What the file is.
    pub kind: Kind,
    /// The length of its content in bytes.
    pub length: u64,
    /// The MD5 of its content.
    pub md5: [u8; 16],
    /// The bytes before the samples.
    pub head: Bytes,
    /// The pads between the samples, in their short form.
    pub pads: Bytes,
    /// The bytes behind the samples.
    pub tail: Bytes,
}

impl Named for FileRecord {
    ghost name_of = { λ r. r.name };

    fn name(&self) -> &str {
        self.name.as_str()
    }
}
