//! Nodes whose children's ids have 32 bits.
ghost use Rattle.node_store.specs.Narrow.{IsPair, hash_of, number_of, wide};
ghost use Rattle.slp_model.specs.Distinct.{IsOfByte};
ghost use Rattle.std.specs.Prelude.{◌≡◌, ◌↔◌, IfSome, IsTrue};

use slp_model::{Node, NodeId};

/// A byte, or a pair of children whose ids are below 2^32 - 1. It takes 8 bytes, since it has no tag.
#[derive(Clone, Copy, PartialEq, Eq)]
pub(crate) struct Narrow {
    // The left child's id, or the byte.
    pub(crate) left: u32,
    // The right child's id, or `BYTE`.
    pub(crate) right: u32,
}

// The id that no child has.
const BYTE: u32 = u32::MAX;

impl Narrow {
    /// A number of 64 bits, which no other node has.
    pub(crate) fn number(&self) -> u64
        ensures { result ≡ number_of self.now }
    {
        u64::from(self.left) * (1 << 32) + u64::from(self.right)
    }

    /// Its hash, of 32 bits: the highest bits of a multiplicative hash, whose factor is odd (G. Steele and S. Vigna,
    /// Computationally easy, spectrally good multipliers, 2022).
    #[inline(always)]
    pub(crate) fn hash(&self) -> u32
        ensures { result ≡ hash_of self.now }
    {
        (self.number().wrapping_mul(0xD134_2543_DE82_EF95) / (1 << 32)) as u32
    }

    /// The node in this form, unless an id is too great for it.
    pub(crate) fn of(node: Node) -> Option<Narrow>
        ensures wide { IfSome result (λ narrow. wide narrow ≡ node) }
        ensures byte { IfSome result (λ narrow. IsOfByte (wide narrow)) }
    {
        match node {
            Node::Byte(b) => Some(Narrow {
                left: u32::from(b),
                right: BYTE,
            }),
            Node::Pair(left, right) => {
                let left = u32::try_from(left.index).ok()?;
                let right = u32::try_from(right.index).ok()?;
                if right == BYTE {
                    return None;
                }
                Some(Narrow { left, right })
            }
        }
    }

    /// Whether it is a pair.
    #[inline(always)]
    pub(crate) fn is_pair(&self) -> bool
        ensures { IsTrue result ↔ IsPair self.now }
    {
        self.right != BYTE
    }

    /// The node that it stands for.
    #[inline(always)]
    pub(crate) fn widened(self) -> Node
        requires { IsOfByte (wide self) }
        ensures { result ≡ wide self }
    {
        if self.right == BYTE {
            return Node::Byte(self.left as u8);
        }
        Node::Pair(
            NodeId {
                index: self.left as usize,
            },
            NodeId {
                index: self.right as usize,
            },
        )
    }
}
