//! Why bytes are rejected as an image.
ghost use Rattle.slp_image.specs.Fields.{kind_of};
ghost use Rattle.slp_image.specs.declared.refusal.ImageRefusal.TheVariants as refusals;
ghost use Rattle.std.specs.Prelude.{◌≡◌};

use span_types::NoMemory;
use thiserror::Error;

/// Why bytes are rejected as an image: the first error in the order of the fields. Each kind has a number, from 1 to
/// 12.
#[derive(Clone, Copy, Debug, PartialEq, Eq, Error)]
pub enum ImageRefusal {
    /// 1: the bytes don't begin with `SLPI`.
    #[error("not an image")]
    Magic,
    /// 2: the version is neither 1 nor 2.
    #[error("no known version")]
    Version,
    /// 3: the bytes end within a field.
    #[error("the image is cut")]
    Cut,
    /// 4: a record's kind doesn't exist in this version.
    #[error("no known kind of record")]
    Kind,
    /// 5: a record refers to a record that doesn't come before it.
    #[error("a child that does not come before its record")]
    Child,
    /// 6: the heights of the two children of a pair of version 1 differ by more than 1.
    #[error("a pair that is not balanced")]
    Balance,
    /// 7: a text would have more than 2^48 bytes.
    #[error("a text that is too long")]
    Length,
    /// 8: a root refers to no record.
    #[error("a root that is no record")]
    Root,
    /// 9: a document's name isn't a valid name.
    #[error("a document whose name is no name")]
    Name,
    /// 10: an earlier document has the name.
    #[error("a name that comes twice")]
    RepeatName,
    /// 11: bytes follow the last document.
    #[error("bytes after the last document")]
    Rest,
    /// 12: a run has no copies, in version 2.
    #[error("a run of no copies")]
    Count,
    /// Allocation failed.
    #[error("no memory")]
    NoMemory,
}

impl ImageRefusal {
    /// The number of the kind, from 1 to 12, or `None` for `NoMemory`.
    pub fn kind(&self) -> Option<u8>
        ensures { result ≡ kind_of self.now }
    {
        match self {
            ImageRefusal::Magic => Some(1),
            ImageRefusal::Version => Some(2),
            ImageRefusal::Cut => Some(3),
            ImageRefusal::Kind => Some(4),
            ImageRefusal::Child => Some(5),
            ImageRefusal::Balance => Some(6),
            ImageRefusal::Length => Some(7),
            ImageRefusal::Root => Some(8),
            ImageRefusal::Name => Some(9),
            ImageRefusal::RepeatName => Some(10),
            ImageRefusal::Rest => Some(11),
            ImageRefusal::Count => Some(12),
            ImageRefusal::NoMemory => None,
        }
    }
}

impl From<NoMemory> for ImageRefusal {
    ghost from_gives = { λ _ e. e ≡ refusals.NoMemory };

    fn from(_: NoMemory) -> ImageRefusal {
        ImageRefusal::NoMemory
    }
}
