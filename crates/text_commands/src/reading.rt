//! Lengths and bytes of the texts in a store, and of files.
ghost use Rattle.edge_io.specs.Causes.{HasIncreased};
ghost use Rattle.slp_model.specs.Nodes.{IsLive, text_of};
ghost use Rattle.span_types.specs.Ranges.{content, is_range};
ghost use Rattle.std.specs.Prelude.{◌≡◌, ◌≤◌, ◌+◌, ◌^◌, [], length, take, IfOk, IfErr, OnOk};
ghost use Rattle.text_commands.specs.Reading.{IsFilePrefix, IsSound, IsFileRejection};

use edge_io::{Shelf, ShelfRefusal};
use span_types::NoMemory;

/// Why a file was not read.
#[derive(Clone, Copy, Debug, PartialEq, Eq)]
pub enum FileRefusal {
    /// No file has this name.
    Absent,
    /// The file can't be read.
    Denied,
    /// The file has more bytes than the limit.
    TooLong,
    /// The file store failed.
    Failed,
    /// Allocation failed.
    NoMemory,
}

impl From<NoMemory> for FileRefusal {
    ghost use Rattle.text_commands.specs.declared.reading.FileRefusal.TheVariants as refusal;

    ghost from_gives = { λ _ e. e ≡ refusal.NoMemory };

    fn from(_: NoMemory) -> Self {
        FileRefusal::NoMemory
    }
}

impl From<ShelfRefusal> for FileRefusal {
    ghost use Rattle.text_commands.specs.Reading.{of_shelf};

    ghost from_gives = { λ why e. e ≡ of_shelf why };

    fn from(why: ShelfRefusal) -> Self {
        match why {
            ShelfRefusal::Failed => FileRefusal::Failed,
            ShelfRefusal::NoMemory => FileRefusal::NoMemory,
            ShelfRefusal::Absent => FileRefusal::Absent,
            ShelfRefusal::Denied => FileRefusal::Denied,
        }
    }
}

/// Checks that a file has at most `limit` bytes, by reading the byte after them.
pub fn check_size<F: Shelf>(shelf: &mut F, name: &[u8], limit: u64) -> Result<(), FileRefusal>
    ensures ok { OnOk result (IsFilePrefix (F.files shelf.old) name.now limit []) }
    ensures refused { IfErr result (IsFileRejection (F.files shelf.old) name.now limit) }
    ensures files { F.files shelf.new ≡ F.files shelf.old }
    ensures later { F.faults shelf.old ≤ F.faults shelf.new }
    ensures fault { IfErr result (λ why. why ≡ FileRefusal.Failed → HasIncreased (F.faults shelf.old) (F.faults shelf.new)) }
    ensures sound { IsSound result (F.faults shelf.old) (F.faults shelf.new) }
{
    let mut byte = [0u8; 1];
    let count = shelf.read_at(name, limit, &mut byte)?;
    if count > 0 {
        return Err(FileRefusal::TooLong);
    }
    Ok(())
}
