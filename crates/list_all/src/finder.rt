//! Finding the page of one text.
ghost use Rattle.list_all.specs.Page.{Page, IsPageOf};
ghost use Rattle.slp_model.specs.Nodes.{text_of};
ghost use Rattle.slp_model.specs.declared.NodeId.{NodeId};
ghost use Rattle.span_enum.specs.Listing.{IsReady};
ghost use Rattle.std.specs.Prelude.{◌≡◌, ◌<◌, Option, IfOk};

use crate::found::OnePage;
use crate::single::page;
use marker_dfa::Dfa;
use node_store::NodeId;
use span_types::{NoMemory, Steps};
use state_tables::View;
use std::alloc::Global;
use std::marker::Brand;
use std::sync::ledger::{Blank, Ledger};

/// Finds the page of a root's text. It can be called from any thread.
pub(crate) trait FindPage: Sync {
    ghost can_find: { Self → Option NodeId → Type 0 };

    ghost is_page: { Self → Option NodeId → Page → Type 0 };

    fn find(&self, alloc: Global, root: Option<NodeId>) -> Result<OnePage, NoMemory>
        requires { can_find self.now root }
        ensures { IfOk result (is_page self.now root) };
}

/// Finds the first `limit` answers of an automaton on a text whose nodes have tables, and whether there are more.
#[derive(Clone, Copy)]
pub(crate) struct Finder<'a> {
    pub(crate) view: View<'a>,
    pub(crate) dfa: &'a Dfa,
    pub(crate) limit: u16,
}

impl<'a> FindPage for Finder<'a> {
    ghost can_find = { λ f root. IsReady f.dfa.now f.view.store.now f.view.tables.now root };

    ghost is_page = { λ f root p. IsPageOf f.dfa.now (text_of f.view.store.now root) f.limit p };

    fn find(&self, alloc: Global, root: Option<NodeId>) -> Result<OnePage, NoMemory> {
        counted::<Brand>(alloc, self.view, self.dfa, root, self.limit, Blank::new(1))
    }
}

/// Finds the page of a root's text, with a counter of its own.
fn counted<L: Ledger>(
    alloc: Global,
    view: View<'_>,
    dfa: &Dfa,
    root: Option<NodeId>,
    limit: u16,
    blank: Blank,
) -> Result<OnePage, NoMemory>
    requires name { blank.name ≡ L.name }
    requires parts { blank.parts ≡ L.parts }
    requires some { 0 < L.parts }
    requires ready { IsReady dfa.now view.store.now view.tables.now root }
    ensures { IfOk result (IsPageOf dfa.now (text_of view.entry.store.now root) limit) }
{
    let mut looks = Steps::<L>::new(blank);
    page(alloc, view, dfa, root, limit, &mut looks)
}
