//! The unions of the sets that two texts reach.

ghost use Rattle.state_tables.specs.Coded.{list_of};
ghost use Rattle.state_tables.specs.RowSet.{IsSetAt, TakesSet};
ghost use Rattle.state_tables.specs.StateSet.{number_of_words};
ghost use Rattle.state_tables.specs.Unions.{AreUnions, union_of};
ghost use Rattle.std.specs.Prelude.{◌≡◌, ℕ, ◌-◌, ◌<◌, ◌≤◌, ◌^◌, List, length, IfOk, OnOk};

use crate::row_set::RowSet;
use crate::sets::Sets;
use crate::state_set::{MAX_WORDS, put_union};
use crate::table_rows::TableRows;
use span_types::NoMemory;
use std::marker::Model;

/// The union of an image and a set of the right text: the indices of both, and one more than its own index, or 0.
#[derive(Clone, Copy)]
pub(crate) struct Union {
    image: u16,
    beyond: u16,
    union: u16,
}

const SLOTS: usize = 64;

/// What the sets of a left text reach over a right one, their images, and some unions of these with sets of the right
/// text that were computed already. The rows of a table have few distinct sets, so most unions are found here.
#[derive(Drop)]
pub(crate) struct Unions {
    images: Sets,
    slots: [Union; SLOTS],
}

impl Model for Unions {
    ghost use Rattle.std.specs.Prelude.{◌≡◌, ◌≤◌};
    ghost use Rattle.state_tables.specs.Unions.{UnionMemo};

    ghost Value = { UnionMemo };

    ghost view = { λ u. record { width = u.images.width; images = u.images.sets; slots = u.slots } };

    ghost invariant = { λ u. u.images.width ≤ 16 };
}

impl Unions {
    /// No unions of these images yet. Nothing is allocated.
    pub(crate) fn new(images: Sets) -> Unions
        requires { images.width ≤ 16 }
        ensures images { result ≡ record result { width = images.width; images = images.sets } }
        ensures none { (rights sets : List ℕ) → AreUnions result rights sets }
    {
        let none = Union {
            image: 0,
            beyond: 0,
            union: 0,
        };
        Unions {
            images,
            slots: [none; SLOTS],
        }
    }

    /// The index among the found sets of the union of an image and a set of the right text. It is added if it isn't there.
    /// `beyond` is one more than the index of the right text's set, or 0 for none.
    ///
    /// # Errors
    ///
    /// `NoMemory` if allocation fails.
    pub(crate) fn index_of(
        &mut self,
        found: &mut RowSet,
        rows: &TableRows,
        image: u16,
        beyond: u16,
    ) -> Result<u16, NoMemory>
        requires image { image < length self.old.images }
        requires beyond { beyond ≤ length rows.now.sets }
        requires right { rows.now.width ≡ self.old.width }
        requires width { found.old.width ≡ self.old.width }
        requires few { length found.old.sets < 2 ^ 16 - 1 }
        requires unions { AreUnions self.old rows.now.sets found.old.sets }
        ensures unions { OnOk result (AreUnions self.new rows.now.sets found.new.sets) }
        ensures images { self.new ≡ record self.new { width = self.old.width; images = self.old.images } }
        ensures index { IfOk result (IsSetAt found.new.sets (union_of self.old.images rows.now.sets image beyond)) }
        ensures taken { OnOk result (TakesSet found.old.sets found.new.sets (union_of self.old.images rows.now.sets image beyond)) }
        ensures same { OnOk result (list_of found.new ≡ list_of found.old) }
    {
        if beyond == 0 {
            return found.set_of(self.images.words(image as usize));
        }
        let slot = slot_of(image, beyond);
        let known = self.slots[slot];
        if known.union > 0 && known.image == image && known.beyond == beyond {
            return Ok(known.union - 1);
        }
        let mut room = [0; MAX_WORDS];
        let words = &mut room[..self.images.width()];
        unite(words, &self.images, rows, image, beyond);
        let index = found.set_of(words)?;
        self.slots[slot] = Union {
            image,
            beyond,
            union: index + 1,
        };
        Ok(index)
    }
}

// Makes the words those of the union of an image and a set of the right text.
fn unite(words: &mut [u64], images: &Sets, rows: &TableRows, image: u16, beyond: u16)
    requires image { image < length images.now.sets }
    requires some { 0 < beyond }
    requires beyond { beyond ≤ length rows.now.sets }
    requires left { length words.old ≡ images.now.width }
    requires right { length words.old ≡ rows.now.width }
    ensures value { number_of_words words.new ≡ union_of images.now.sets rows.now.sets image beyond }
    ensures width { length words.new ≡ length words.old }
{
    let beyond = rows.set((beyond - 1) as usize);
    put_union(words, beyond.words(), images.words(image as usize));
}

// The slot of a union.
fn slot_of(image: u16, beyond: u16) -> usize
    ensures { result < 64 }
{
    (image.wrapping_mul(7) ^ beyond) as usize % SLOTS
}
