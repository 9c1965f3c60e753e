// Numbers modulo p.
use field::{Element, P};
use std::test::Fail;

#[test]
fn minus_one_squared(rt: HostRuntime) -> Result<(), Fail> {
    let one = Element::from(1u32);
    let last = Element::try_from(P - 1).map_err(|_| Fail::new("below p"))?;
    assert_eq!(rt; last * last, one);
    assert_eq!(rt; last + one, Element::zero());
    assert_eq!(rt; Element::zero() - one, last);
    assert_eq!(rt; -one, last);
    assert!(rt; Element::try_from(P).is_err());
    Ok(())
}

#[test]
fn half(rt: HostRuntime) -> Result<(), Fail> {
    let half = Element::from(2u32)
        .inverse()
        .ok_or_else(|| Fail::new("2 has an inverse"))?;
    assert_eq!(rt; u64::from(half), 1_152_921_504_606_846_976);
    assert_eq!(rt; half.power(61), Element::from(1u32));
    assert!(rt; Element::zero().inverse().is_none());
    Ok(())
}
