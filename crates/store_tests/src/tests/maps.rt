//! Tests of maps from names to values.
use name_map::NameMap;
use span_types::{Name, NoMemory};
use std::alloc::Global;
use std::process::Abort;
use std::test::Fail;

fn set(alloc: Global, sizes: &mut NameMap<u8>, name: &[u8], size: u8) -> Result<(), NoMemory> {
    let name = Name::new(alloc, name).map_err(|_| NoMemory)?;
    sizes.set(alloc, name, size)
}

/// Sets these names and sizes in this order.
fn set_all(alloc: Global, sizes: &mut NameMap<u8>, rows: &[(&[u8], u8)]) -> Result<(), NoMemory> {
    for (name, size) in rows {
        set(alloc, sizes, name, *size)?;
    }
    Ok(())
}

fn sizes_of(alloc: Global, rows: &[(&[u8], u8)]) -> Result<NameMap<u8>, NoMemory> {
    let mut sizes = NameMap::new(alloc);
    set_all(alloc, &mut sizes, rows)?;
    Ok(sizes)
}

/// Whether the map has the name and the size at index `index`.
fn is_at(sizes: &NameMap<u8>, index: usize, name: &[u8], size: u8) -> bool {
    if index >= sizes.count() {
        return false;
    }
    let (found, value) = sizes.at(index);
    found.bytes() == name && *value == size
}

fn put_at(sizes: &mut NameMap<u8>, index: usize, size: u8) {
    if index < sizes.count() {
        *sizes.value_mut(index) = size;
    }
}

fn size_of(sizes: &NameMap<u8>, name: &[u8]) -> Option<u8> {
    sizes.get(name).copied()
}

fn taken(sizes: &mut NameMap<u8>, name: &[u8]) -> Option<u8> {
    sizes.take_out(name)
}

fn count(sizes: &NameMap<u8>) -> usize {
    sizes.count()
}

#[test]
fn sizes_by_name(rt: HostRuntime) -> Result<(), Fail> {
    let mut sizes = sizes_of(rt.alloc(), &[(b"a", 1), (b"b", 2), (b"a", 3)])?;
    assert!(rt; count(&sizes) == 2);
    assert!(rt; is_at(&sizes, 0, b"a", 3));
    put_at(&mut sizes, 1, 4);
    assert!(rt; size_of(&sizes, b"b") == Some(4));
    assert!(rt; size_of(&sizes, b"c") == None);
    assert!(rt; taken(&mut sizes, b"a") == Some(3));
    assert!(rt; taken(&mut sizes, b"a") == None);
    assert!(rt; count(&sizes) == 1);
    Ok(())
}

/// A map from which the first name was removed and set again, which puts it last.
fn b_and_a(rt: &impl Abort, alloc: Global) -> Result<NameMap<u8>, NoMemory> {
    let mut sizes = sizes_of(alloc, &[(b"a", 1), (b"b", 2), (b"a", 3)])?;
    assert!(rt; taken(&mut sizes, b"a") == Some(3));
    set(alloc, &mut sizes, b"a", 5)?;
    Ok(sizes)
}

#[test]
fn first_name_goes_last(rt: HostRuntime) -> Result<(), Fail> {
    let mut sizes = b_and_a(&rt, rt.alloc())?;
    assert!(rt; count(&sizes) == 2);
    assert!(rt; is_at(&sizes, 0, b"b", 2));
    assert!(rt; is_at(&sizes, 1, b"a", 5));
    assert!(rt; taken(&mut sizes, b"a") == Some(5));
    assert!(rt; taken(&mut sizes, b"b") == Some(2));
    assert!(rt; count(&sizes) == 0);
    Ok(())
}
