//! Sets of bytes that are being read.
ghost use Rattle.formula_syntax.specs.Lexis.{bytes_where, in_ranges};
ghost use Rattle.formula_syntax.specs.Machine.{Stack, MachinePending, empty, member, to_dash, end_set};
ghost use Rattle.formula_syntax.specs.View.{ShowsSet, GivesSet, IsWhole};
ghost use Rattle.std.specs.Prelude.{◌≡◌, ◌≤◌, ◌==◌, ◌++◌, ◌∷◌, [], ℕ, Bool, List};

use span_types::ByteSet;

/// How far an item is read.
#[derive(Clone, Copy)]
pub enum Pending {
    /// No item is open.
    Empty,

    /// One member, which a dash may follow.
    Low(u8),

    /// A member and a dash.
    Dash(u8),
}

/// A set as far as it is read.
#[derive(Clone, Copy)]
pub struct SetReader {
    /// Whether it is the complement of its items.
    pub negated: bool,

    /// The bytes of the finished items.
    pub members: ByteSet,
    pub pending: Pending,
}

/// The set of one byte.
pub fn only(byte: u8) -> ByteSet
    ensures { result ≡ bytes_where (λ c. c == byte) }
{
    let mut members = ByteSet::empty();
    members.insert(byte);
    members
}

/// A set with each byte from `low` to `high` added.
fn with_range(set: ByteSet, low: u8, high: u8) -> ByteSet
    requires { low ≤ high }
    ensures { (rs : List (ℕ × ℕ)) → set ≡ bytes_where (in_ranges rs) → result ≡ bytes_where (in_ranges (rs ++ (low, high) ∷ [])) }
{
    let mut members = set;
    for byte in low..=high {
        members.insert(byte);
    }
    members
}

impl SetReader {
    /// A set with no item yet.
    pub fn new(negated: bool) -> SetReader
        ensures { ShowsSet result negated [] empty }
    {
        SetReader {
            negated,
            members: ByteSet::empty(),
            pending: Pending::Empty,
        }
    }

    /// The set after a member, if that may follow.
    pub fn member(self, byte: u8) -> Option<SetReader>
        ensures { (k : Stack) (neg : Bool) (rs : List (ℕ × ℕ)) (p : MachinePending) → ShowsSet self neg rs p → GivesSet result k (member k neg rs p byte) }
    {
        let SetReader {
            negated,
            members,
            pending,
        } = self;
        match pending {
            Pending::Empty => Some(SetReader {
                negated,
                members,
                pending: Pending::Low(byte),
            }),
            Pending::Low(low) => Some(SetReader {
                negated,
                members: with_range(members, low, low),
                pending: Pending::Low(byte),
            }),
            Pending::Dash(low) => {
                if low <= byte {
                    Some(SetReader {
                        negated,
                        members: with_range(members, low, byte),
                        pending: Pending::Empty,
                    })
                } else {
                    None
                }
            }
        }
    }

    /// The set after a dash, if that may follow.
    pub fn dash(self) -> Option<SetReader>
        ensures { (k : Stack) (neg : Bool) (rs : List (ℕ × ℕ)) (p : MachinePending) → ShowsSet self neg rs p → GivesSet result k (to_dash k neg rs p) }
    {
        match self.pending {
            Pending::Low(low) => Some(SetReader {
                pending: Pending::Dash(low),
                ..self
            }),
            _ => None,
        }
    }

    /// The whole set at its closing bracket, if no range is open.
    pub fn end(self) -> Option<ByteSet>
        ensures { (k : Stack) (neg : Bool) (rs : List (ℕ × ℕ)) (p : MachinePending) → ShowsSet self neg rs p → IsWhole result k (end_set k neg rs p) }
    {
        let SetReader {
            negated,
            members,
            pending,
        } = self;
        let whole = match pending {
            Pending::Empty => members,
            Pending::Low(low) => with_range(members, low, low),
            Pending::Dash(_) => return None,
        };
        if negated {
            Some(whole.complement())
        } else {
            Some(whole)
        }
    }
}
