use super::*;
use std::test::Fail;

#[test]
fn demo_of_three(rt: HostRuntime) -> Result<(), Fail> {
    let wanted = b"text a ab\n\
        let a = concat(a,a)\n\
        let a = concat(a,a)\n\
        let a = concat(a,a)\n\
        let b = delete(a,2,3)\n\
        query q .*$x{aa}.*\n\
        list q b limit 3\n\
        let c = insert(b,a,2)\n\
        query r .*$x{b+}$y{a}.*\n\
        list r c limit 2\n\
        list r c after x=[5,6),y=[6,7) limit 1\n\
        names\n";
    assert_eq!(rt; demo(rt.alloc(), 3)?.as_slice(), wanted.as_slice());
    Ok(())
}
