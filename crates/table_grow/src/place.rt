//! Assigns and caches the tables that were found.

ghost use Rattle.std.specs.Prelude.{◌≡◌, IfOk, OnOk, IsSome, Some};
ghost use Rattle.table_grow.specs.Assignment.{AreKept};
ghost use Rattle.table_grow.specs.Filling.{AreDue, Assigns, AssignsOne, Continues, IsDue};
ghost use Rattle.table_grow.specs.Pieces.{AreMade, AreNumbers, AreSpots, HasNumber, IsFound, IsPiece, number_at};

use crate::filling::Filling;
use crate::found::{Found, Made};
use crate::pieces::{Piece, Spot};
use node_store::NodeId;
use span_types::NoMemory;

/// Assigns the table that was found for a new node, and caches the composition.
pub(crate) fn place_found(filling: &mut Filling, id: NodeId, found: Found) -> Result<(), NoMemory>
    requires due { IsDue filling.old id }
    requires found { IsFound filling.old id.index found }
    ensures continues { Continues filling.old filling.new }
    ensures one { OnOk result (AssignsOne filling.old filling.new id) }
{
    match found {
        Found::Kept(number) => {
            filling.assign(id, number);
            Ok(())
        }
        Found::New(made) => {
            let number = filling.keep(made, true)?;
            filling.assign(id, number);
            Ok(())
        }
    }
}

/// The number of compositions that are cached of those that were computed at once. More would soon fill a cache of
/// 4,096, which is emptied when it is full.
const CACHED_AT_ONCE: usize = 2048;

// Keeps the tables that were computed, caches the last compositions, and returns the tables' numbers.
fn keep_made(filling: &mut Filling, made: Vec<Made>) -> Result<Vec<usize>, NoMemory>
    requires made { AreMade filling.old.tables made.items }
    ensures numbers { IfOk result (λ numbers. AreNumbers filling.new.tables made.items numbers.items) }
    ensures kept { AreKept filling.old.tables filling.new.tables }
    ensures same { filling.new ≡ record filling.old { tables = filling.new.tables; entries = filling.new.entries } }
{
    let count = made.len();
    let mut numbers = Vec::with_capacity(filling.growth().alloc, count)?;
    for one in made {
        let is_last = numbers.len().saturating_add(CACHED_AT_ONCE) >= count;
        let number = filling.keep(one, is_last)?;
        numbers.push(number)?;
    }
    Ok(numbers)
}

// The number of the table at a spot.
fn number_of(numbers: &[usize], spot: Spot) -> usize
    requires { IsSome (number_at numbers.now spot) }
    ensures { number_at numbers.now spot ≡ Some result }
{
    match spot {
        Spot::Kept(number) => number,
        Spot::Made(index) => numbers[index],
    }
}

// Assigns to each node the number of its table.
fn place_spots(filling: &mut Filling, spots: &[Spot], numbers: &[usize], ids: &[NodeId])
    requires due { AreDue filling.old ids.now }
    requires numbers { AreSpots (HasNumber filling.old numbers.now) ids.now spots.now }
    ensures { Assigns filling.old filling.new ids.now }
{
    for index in 0..ids.len() {
        let number = number_of(numbers, spots[index]);
        filling.assign(ids[index], number);
    }
}

/// Assigns the tables that were found for some new nodes.
pub(crate) fn place_piece(
    filling: &mut Filling,
    ids: &[NodeId],
    piece: Piece,
) -> Result<(), NoMemory>
    requires due { AreDue filling.old ids.now }
    requires piece { IsPiece filling.old ids.now piece }
    ensures continues { Continues filling.old filling.new }
    ensures all { OnOk result (Assigns filling.old filling.new ids.now) }
{
    let Piece { spots, made } = piece;
    let numbers = keep_made(filling, made)?;
    place_spots(filling, &spots, &numbers, ids);
    Ok(())
}
