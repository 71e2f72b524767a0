//! Pages that several documents share: equal roots have equal texts and equal pages, so each distinct root's page is
//! found once.
ghost use Rattle.list_all.specs.Page.{Page};
ghost use Rattle.list_all.specs.Pages.{AreEach};
ghost use Rattle.list_all.specs.Places.{HasPage};
ghost use Rattle.std.specs.Prelude.{◌≡◌, ◌+◌, ◌<◌, ◌++◌, ℕ, All, Some, map, length, slice_get, IfOk, OnOk};

use crate::finder::FindPage;
use crate::found::OnePage;
use indexmap::IndexSet;
use node_store::NodeId;
use span_types::NoMemory;
use std::alloc::Global;

/// The pages found, and for each root, in order, the index of its page in them.
#[derive(Drop)]
pub(crate) struct Shared {
    pub(crate) found: Vec<OnePage>,
    pub(crate) places: Vec<usize>,
}

/// The index of the root's page in `found`. If the root isn't in `seen`, its page is found now and put last.
pub(crate) fn page_index<F: FindPage>(
    alloc: Global,
    finder: &F,
    seen: &mut IndexSet<Option<NodeId>>,
    found: &mut Vec<OnePage>,
    root: Option<NodeId>,
) -> Result<usize, NoMemory>
    requires can { F.can_find finder.now root }
    requires pages { AreEach (F.is_page finder.now) seen.old.keys found.old.items }
    ensures pages { OnOk result (AreEach (F.is_page finder.now) seen.new.keys found.new.items) }
    ensures page { IfOk result (HasPage (F.is_page finder.now) found.new.items root) }
    ensures kept { OnOk result ((k : ℕ) (p : Page) → slice_get found.old.items k ≡ Some p → slice_get found.new.items k ≡ Some p) }
{
    let Ok((index, new)) = seen.insert_full(root) else {
        return Err(NoMemory);
    };
    if !new {
        return Ok(index);
    }
    let page = finder.find(alloc, root)?;
    found.push(page)?;
    Ok(index)
}

/// The pages of the first roots followed by those of the second.
pub(crate) fn joined(first: Shared, second: Shared) -> Result<Shared, NoMemory>
    requires { All (λ k. k < length second.found.items) second.places.items }
    ensures found { IfOk result (λ all. all.found.items ≡ first.found.items ++ second.found.items) }
    ensures places { IfOk result (λ all. all.places.items ≡ first.places.items ++ map (λ k. length first.found.items + k) second.places.items) }
{
    let Shared {
        mut found,
        mut places,
    } = first;
    let Shared {
        found: mut more,
        places: next,
    } = second;
    let before = found.len();
    found.append(&mut more)?;
    let _all = found.len();
    for index in &next {
        places.push(before + *index)?;
    }
    Ok(Shared { found, places })
}
