// From a message to its bytes.
ghost use Rattle.std.specs.Prelude.{◌≡◌, ◌++◌, IfOk, OnOk};
ghost use Rattle.message.specs.Model.{message_of};
ghost use Rattle.polynomial.specs.Lists.{coeffs};
ghost use Rattle.polynomial.specs.Numbers.{numbers};
ghost use Rattle.rules.specs.Wire.{be8, row, wire};

use crate::types::{Body, Message};
use field::Element;
use polynomial::{Pair, Share};
use std::alloc::{AllocError, Global};

fn put_row(out: &mut Vec<u8>, elements: &[Element]) -> Result<(), AllocError>
    ensures { OnOk result (out.new.items ≡ out.old.items ++ row (numbers elements.now)) }
{
    for element in elements {
        out.extend_from_slice(&u64::from(*element).to_be_bytes())?;
    }
    Ok(())
}

fn put_share(out: &mut Vec<u8>, share: &Share) -> Result<(), AllocError>
    ensures { OnOk result (out.new.items ≡ out.old.items ++ (row (coeffs share.now.across) ++ row (coeffs share.now.down))) }
{
    put_row(out, share.across.as_slice())?;
    put_row(out, share.down.as_slice())
}

fn put_pair(out: &mut Vec<u8>, pair: Pair) -> Result<(), AllocError>
    ensures { OnOk result (out.new.items ≡ out.old.items ++ (be8 pair.across ++ be8 pair.down)) }
{
    out.extend_from_slice(&pair.across.to_be_bytes())?;
    out.extend_from_slice(&pair.down.to_be_bytes())
}

// The bytes of a message.
pub fn write(heap: Global, message: &Message) -> Result<Vec<u8>, AllocError>
    ensures { IfOk result (λ v. v.items ≡ wire (message_of message.now)) }
{
    let Message { head, body } = message;
    let mut out = Vec::new(heap);
    out.push(u8::from(body.kind()))?;
    out.extend_from_slice(&head.night.to_be_bytes())?;
    out.push(head.dealer)?;
    match body {
        Body::Share(share) => put_share(&mut out, share)?,
        Body::Told(pair) => put_pair(&mut out, *pair)?,
        Body::Complaint { by, about, pair } => {
            out.push(*by)?;
            out.push(*about)?;
            put_pair(&mut out, *pair)?;
        }
        Body::Reveal { keeper, share } => {
            out.push(*keeper)?;
            put_share(&mut out, share)?;
        }
        Body::Fine { keeper, fine } => {
            out.push(*keeper)?;
            out.push(u8::from(*fine))?;
        }
        Body::Finished { keeper } => out.push(*keeper)?,
        Body::Value { keeper, value } => {
            out.push(*keeper)?;
            out.extend_from_slice(&u64::from(*value).to_be_bytes())?;
        }
    }
    Ok(out)
}
