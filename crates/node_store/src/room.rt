//! Room for one more item of a vector.
ghost use Rattle.std.specs.Prelude.{◌≡◌, ◌<◌, vec_len, vec_capacity, OnOk};

use span_types::NoMemory;

/// Makes room for one more item. Mostly there is some, which is seen without a call.
#[inline(always)]
pub(crate) fn reserve_one<T>(items: &mut Vec<T>) -> Result<(), NoMemory>
    ensures same { items.new.items ≡ items.old.items }
    ensures room { OnOk result (vec_len items.new < vec_capacity items.new) }
{
    if items.len() >= items.capacity() {
        items.reserve(1)?;
    }
    Ok(())
}
