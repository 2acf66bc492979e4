//! The JSON of what requests are made of.
ghost use Rattle.std.specs.Prelude.{◌≡◌, IfOk};
ghost use Rattle.serde_json.specs.View.{view};
ghost use Rattle.ipam_record_text.specs.Reservations.{cidr_data};
ghost use Rattle.ipam_request_text.specs.Parts.{texts_data, pairs_data, addresses_data, address_data, cidrs_data};

use ipam_addr::{Addr, Cidr, push_addr, push_cidr};
use ipam_text::Text;
use serde_json::{Map, Value, put};
use std::alloc::{AllocError, Global};

pub(crate) fn texts_value(alloc: Global, texts: &[Text]) -> Result<Value, AllocError>
    ensures { IfOk result (λ v. view v ≡ texts_data texts.now) }
{
    let mut list = Vec::new(alloc);
    for text in texts {
        list.push(Value::try_from_str(alloc, text.as_str())?)?;
    }
    Ok(Value::Array(list))
}

pub(crate) fn pairs_value(alloc: Global, pairs: &[(Text, Text)]) -> Result<Value, AllocError>
    ensures { IfOk result (λ v. view v ≡ pairs_data pairs.now) }
{
    let mut members = Map::new(alloc);
    for pair in pairs {
        let value = Value::try_from_str(alloc, pair.1.as_str())?;
        put(&mut members, alloc, pair.0.as_str(), value)?;
    }
    Ok(Value::Object(members))
}

pub(crate) fn address_value(alloc: Global, address: Addr) -> Result<Value, AllocError>
    ensures { IfOk result (λ v. view v ≡ address_data address) }
{
    let mut text = String::new(alloc);
    push_addr(alloc, &mut text, address)?;
    Ok(Value::String(text))
}

pub(crate) fn addresses_value(alloc: Global, addresses: &[Addr]) -> Result<Value, AllocError>
    ensures { IfOk result (λ v. view v ≡ addresses_data addresses.now) }
{
    let mut list = Vec::new(alloc);
    for address in addresses {
        list.push(address_value(alloc, *address)?)?;
    }
    Ok(Value::Array(list))
}

pub(crate) fn cidr_value(alloc: Global, cidr: Cidr) -> Result<Value, AllocError>
    ensures { IfOk result (λ v. view v ≡ cidr_data cidr) }
{
    let mut text = String::new(alloc);
    push_cidr(alloc, &mut text, cidr)?;
    Ok(Value::String(text))
}

pub(crate) fn cidrs_value(alloc: Global, cidrs: &[Cidr]) -> Result<Value, AllocError>
    ensures { IfOk result (λ v. view v ≡ cidrs_data cidrs.now) }
{
    let mut list = Vec::new(alloc);
    for cidr in cidrs {
        list.push(cidr_value(alloc, *cidr)?)?;
    }
    Ok(Value::Array(list))
}
