use crate::{Name, Spelling, copy_name};
use std::test::Fail;

#[test]
fn names_are_copied_and_compared(rt: HostRuntime) -> Result<(), Fail> {
    let a = rt.alloc();
    let name = Name {
        spelling: Spelling::copy_of(a, b"count")?,
        at: 7,
    };
    let copy = copy_name(a, &name)?;
    assert!(rt; copy.spelling == name.spelling);
    assert_eq!(rt; copy.at, 7);
    let other = Spelling::from_vec(b"counts".to_vec(a)?);
    assert!(rt; copy.spelling < other);
    assert!(rt; copy.spelling != other);
    assert_eq!(rt; other.into_vec().as_slice(), b"counts".as_slice());
    Ok(())
}
