// Bytes worked out by hand.
use message::{Body, Head, Message, read, write};
use polynomial::{Pair, Shape};
use std::test::Fail;

#[test]
fn complaint(rt: HostRuntime) -> Result<(), Fail> {
    let shape = Shape::new(2, 2).ok_or_else(|| Fail::new("no shape"))?;
    let pair = Pair {
        across: 0x0102_0304_0506_0708,
        down: 5,
    };
    let said = Message {
        head: Head {
            night: 0x0a0b_0c0d,
            dealer: 2,
        },
        body: Body::Complaint {
            by: 1,
            about: 3,
            pair,
        },
    };
    let bytes = write(rt.alloc(), &said)?;
    let wanted =
        b"\x03\x0a\x0b\x0c\x0d\x02\x01\x03\x01\x02\x03\x04\x05\x06\x07\x08\0\0\0\0\0\0\0\x05";
    assert!(rt; bytes.as_slice() == wanted.as_slice());
    assert!(rt;
        read(bytes.as_slice(), 3, shape).is_err(),
        "keeper 3 is not among three"
    );
    let back = read(bytes.as_slice(), 4, shape).map_err(|_| Fail::new("refused"))?;
    let again = write(rt.alloc(), &back)?;
    assert!(rt; again.as_slice() == wanted.as_slice());
    Ok(())
}
