// F = 5 + 2x + 3y + xy among four keepers.
use field::Element;
use polynomial::{Bivariate, Polynomial, Shape};
use std::test::Fail;

// Has a polynomial these two coefficients?
fn is(f: &Polynomial, low: u32, high: u32) -> bool {
    f.as_slice() == [Element::from(low), Element::from(high)].as_slice()
}

fn dealt() -> Result<Bivariate, Fail> {
    Shape::new(2, 2)
        .and_then(|shape| Bivariate::from_slice(shape, &[5u32, 3, 2, 1].map(Element::from)))
        .ok_or_else(|| Fail::new("four numbers"))
}

#[test]
fn shares_of_f(rt: HostRuntime) -> Result<(), Fail> {
    let f = dealt()?;
    let first = f.share(0);
    assert!(rt; is(&first.across, 8, 3));
    assert!(rt; is(&first.down, 7, 4));
    let third = f.share(2);
    assert_eq!(rt; u64::from(third.value()), 14);
    assert!(rt; first.agrees(0, &third, 2));
    assert!(rt; third.agrees_with_itself(2));
    assert!(rt; !first.agrees(0, &third, 3));
    Ok(())
}

#[test]
fn forgotten(rt: HostRuntime) -> Result<(), Fail> {
    let f = dealt()?;
    let mut share = f.share(1);
    share.clear();
    assert_eq!(rt; share.across.len(), 0);
    assert_eq!(rt; u64::from(share.value()), 0);
    Ok(())
}
