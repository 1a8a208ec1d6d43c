//! The image of a card that took one package, worked out by hand.

use super::*;

const GATE: u64 = 256;

const DIRECTORY: u64 = 512;

const HOME: u64 = 174_336;

// Zeros until the row has so many octets.
fn fill(out: &mut Row<u8>, until: usize) -> Result<(), Fail> {
    for _ in out.len()..until {
        out.append(&[0])?;
    }
    Ok(())
}

// The eIM e1, whose counter is 1.
fn put_eim(out: &mut Row<u8>) -> Result<(), Fail> {
    out.append(&[2, b'e', b'1'])?;
    fill(out, 2_304 + 129)?;
    out.append(&[1, b'/'])?;
    fill(out, 2_304 + 258)?;
    out.append(&[1, 7])?;
    fill(out, 2_304 + 387)?;
    out.append(&[0, 0, 0, 0, 0, 0, 0, 1, 0, 0, 0, 1])?;
    fill(out, 6_400)
}

// The home, field by field from the tables of docs/FORMATS.md: B is enabled, and A may come back.
fn home(alloc: Global) -> Result<Row<u8>, Fail> {
    let mut out = Row::new(alloc);
    out.append(&[1])?;
    out.append(&EID)?;
    out.append(&[2, 1, 0, 0, 0, 2, 0, 0, 0, 2, 1])?;
    out.append(&A)?;
    out.append(&[0, 0, 0, 1])?;
    fill(&mut out, 256)?;
    out.append(&A)?;
    fill(&mut out, 256 + 128)?;
    out.append(&B)?;
    out.append(&[1])?;
    fill(&mut out, 2_304)?;
    put_eim(&mut out)?;
    out.append(&[0, 0, 0, 22, 0x30, 20, 0x80, 1, 1, 0x81, 2, b'e', b'1'])?;
    out.append(&[0x82, 1, 1, 0x83, 1, 1, 0xa4, 5, 0xa0, 3, 0x80, 1, 0])?;
    fill(&mut out, 172_288)?;
    Ok(out)
}

// Whether the home on the chip has these octets.
fn home_is<C: Chip>(chip: &mut C, home: &[u8]) -> Result<bool, Fail> {
    for block in 0..673 {
        let mut octets = [0; 256];
        let place = 256 * block;
        chip.read(HOME + place as u64, &mut octets)
            .map_err(|_| "read")?;
        if home.get(place..place + 256) != Some(&octets) {
            return Ok(false);
        }
    }
    Ok(true)
}

#[test]
fn the_image_of_a_worked_card(rt: HostRuntime) -> Result<(), Fail> {
    let alloc = rt.alloc();
    let mut chip = chip_after(alloc, &[Kind::Initial, Kind::Arm])?;
    let (mut magic, mut gate, mut directory) = ([0; 8], [9], [0; 10]);
    chip.read(0, &mut magic).map_err(|_| "magic")?;
    chip.read(GATE, &mut gate).map_err(|_| "gate")?;
    chip.read(DIRECTORY, &mut directory)
        .map_err(|_| "directory")?;
    assert!(rt; magic == *b"IOTCARD:" && gate == [0]);
    // Four blocks changed last: the head, that of the profiles, of the counter, and of the result.
    assert_eq!(rt; directory, [0, 4, 0, 0, 0, 1, 0, 10, 0, 25]);
    assert!(rt; home_is(&mut chip, home(alloc)?.as_slice())?);
    steps_are_held(&chip, &chip);
    openings_are_held(&chip, &chip);
    looks_are_held(&chip, &chip);
    Ok(())
}
