use iot_bytes::{NoMemory, Row};
use small_card::{Body, Eco, Package, Psmo};
use std::alloc::Global;

// An element of fewer than 128 octets.
fn put(out: &mut Row<u8>, tag: u8, content: &[u8]) -> Result<(), NoMemory> {
    out.append(&[tag, u8::try_from(content.len()).unwrap_or(255)])?;
    out.append(content)
}

// A number below 128.
fn put_number(out: &mut Row<u8>, tag: u8, number: u64) -> Result<(), NoMemory> {
    put(out, tag, &[u8::try_from(number).unwrap_or(255)])
}

fn put_psmo(alloc: Global, out: &mut Row<u8>, op: &Psmo) -> Result<(), NoMemory> {
    let mut fields = Row::new(alloc);
    match op {
        Psmo::Enable { iccid, rollback } => {
            put(&mut fields, 0x80, iccid.octets())?;
            if *rollback {
                put(&mut fields, 0x81, &[])?;
            }
            put(out, 0xa0, fields.as_slice())
        }
        Psmo::Disable { iccid } => {
            put(&mut fields, 0x80, iccid.octets())?;
            put(out, 0xa1, fields.as_slice())
        }
        Psmo::Delete { iccid } => {
            put(&mut fields, 0x80, iccid.octets())?;
            put(out, 0xa2, fields.as_slice())
        }
        Psmo::List => put(out, 0x83, &[]),
    }
}

fn put_eco(alloc: Global, out: &mut Row<u8>, op: &Eco) -> Result<(), NoMemory> {
    let mut fields = Row::new(alloc);
    match op {
        Eco::Add { id, address, key } => {
            put(&mut fields, 0x80, id.octets())?;
            put(&mut fields, 0x81, address.octets())?;
            put(&mut fields, 0x82, key.octets())?;
            put(out, 0xa8, fields.as_slice())
        }
        Eco::Update { id, address, key } => {
            put(&mut fields, 0x80, id.octets())?;
            if let Some(address) = address {
                put(&mut fields, 0x81, address.octets())?;
            }
            if let Some(key) = key {
                put(&mut fields, 0x82, key.octets())?;
            }
            put(out, 0xa9, fields.as_slice())
        }
        Eco::Delete { id } => {
            put(&mut fields, 0x80, id.octets())?;
            put(out, 0xaa, fields.as_slice())
        }
        Eco::List => put(out, 0x8b, &[]),
    }
}

fn put_body(alloc: Global, out: &mut Row<u8>, body: &Body) -> Result<(), NoMemory> {
    let mut all = Row::new(alloc);
    match body {
        Body::Psmos(ops) => {
            for op in ops.as_slice() {
                put_psmo(alloc, &mut all, op)?;
            }
            put(out, 0xa4, all.as_slice())
        }
        Body::Ecos(ops) => {
            for op in ops.as_slice() {
                put_eco(alloc, &mut all, op)?;
            }
            put(out, 0xa5, all.as_slice())
        }
    }
}

/// The octets of a short package with an empty signature, written by hand.
pub(crate) fn octets_of(alloc: Global, load: &Package) -> Result<Row<u8>, NoMemory> {
    let mut fields = Row::new(alloc);
    put(&mut fields, 0x80, load.eim.octets())?;
    put(&mut fields, 0x81, load.eid.octets())?;
    put_number(&mut fields, 0x82, u64::from(load.association))?;
    put_number(&mut fields, 0x83, load.counter)?;
    put_body(alloc, &mut fields, &load.body)?;
    let mut content = Row::new(alloc);
    put(&mut content, 0x30, fields.as_slice())?;
    put(&mut content, 0x86, &[])?;
    let mut out = Row::new(alloc);
    put(&mut out, 0x30, content.as_slice())?;
    Ok(out)
}
