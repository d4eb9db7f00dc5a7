ghost use Rattle.std.specs.Prelude.{◌≤◌};

use crate::packets::opaque;
use std::alloc::Global;
use std::test::*;
use sv_packet::*;
use sv_prim::Bytes;

/// The spelling of a line of so many bytes.
fn line_of(alloc: Global, len: usize) -> Result<Vec<u8>, Fail>
    requires { len ≤ 65535 }
{
    let mut text = Vec::new(alloc);
    text.resize(len, 0x41)?;
    let event = Event::SysDesc {
        text: Bytes::new(alloc, text.as_slice())?,
    };
    let mut list = Vec::new(alloc);
    spell(&event, 300, &mut list)?;
    Ok(list)
}

#[test]
fn lengths_of_texts(rt: HostRuntime) -> Result<(), Fail> {
    let alloc = rt.alloc();
    for (len, front) in [
        (0, [0x0e, 0x00].as_slice()),
        (254, [0x0e, 0xfe].as_slice()),
        (255, [0x0e, 0xff, 0xff, 0x00].as_slice()),
        (256, [0x0e, 0xff, 0x00, 0x01].as_slice()),
        (65535, [0x0e, 0xff, 0xff, 0xff].as_slice()),
    ] {
        let list = line_of(alloc, len)?;
        let bytes = list.as_slice();
        assert_eq!(rt; bytes.len(), front.len() + len + 2, "of {len}");
        assert!(rt; bytes.starts_with(front), "of {len}");
        assert!(rt; bytes.ends_with(&[0xac, 0x02]), "of {len}");
    }
    Ok(())
}

/// The spelling of a payload of so many bytes that has no form.
#[tactic(auto, using(crate::proofs::Lent::high_valid))]
fn payload_of(alloc: Global, len: usize) -> Result<Vec<u8>, Fail>
    requires { len ≤ 16383 }
{
    let mut payload = Vec::new(alloc);
    payload.resize(len, 0x41)?;
    let event = opaque(alloc, 512, payload.as_slice())?;
    let mut list = Vec::new(alloc);
    spell(&event, 0, &mut list)?;
    Ok(list)
}

#[test]
fn lengths_of_payloads(rt: HostRuntime) -> Result<(), Fail> {
    let alloc = rt.alloc();
    for (len, front) in [
        (0, [0x80, 0x04, 0x00].as_slice()),
        (127, [0x80, 0x04, 0x7f].as_slice()),
        (128, [0x80, 0x04, 0x80, 0x01].as_slice()),
        (16383, [0x80, 0x04, 0xff, 0x7f].as_slice()),
    ] {
        let list = payload_of(alloc, len)?;
        let bytes = list.as_slice();
        assert_eq!(rt; bytes.len(), front.len() + len + 1, "of {len}");
        assert!(rt; bytes.starts_with(front), "of {len}");
    }
    Ok(())
}

#[test]
#[tactic(auto, using(crate::proofs::Lent::high_valid))]
fn lengths_by_sums(rt: HostRuntime) -> Result<(), Fail> {
    let alloc = rt.alloc();
    for (len, want) in [(0, 4), (127, 131), (128, 133), (16383, 16388)] {
        let mut payload = Vec::new(alloc);
        payload.resize(len, 0x41)?;
        let event = opaque(alloc, 512, payload.as_slice())?;
        assert_eq!(rt; spelled_len(&event), want, "of {len}");
    }
    Ok(())
}
