ghost use Rattle.std.specs.Prelude.{◌≡◌, ◌≤◌, ◌^◌, length};

use super::*;
use std::alloc::Global;
use std::process::Abort;
use std::test::*;
use sv_prim::{Buf, Bytes, NoMemory};

/// Registers a module of one letter.
fn register(
    alloc: Global,
    modules: &mut Modules,
    name: &[u8],
    events: u32,
) -> Result<Result<u32, Full>, NoMemory>
    requires { length name.now ≡ 1 }
{
    Ok(modules.register(Bytes::new(alloc, name)?, events))
}

#[test]
fn offsets_until_there_is_no_room(rt: HostRuntime) -> Result<(), NoMemory> {
    let alloc = rt.alloc();
    let mut modules = Modules::new(alloc);
    assert_eq!(rt; modules.get(0), None);
    assert_eq!(rt; register(alloc, &mut modules, b"A", 15872)?, Ok(512));
    let full = Err(Full {
        modules: 1,
        offset: 16384,
    });
    assert_eq!(rt; register(alloc, &mut modules, b"B", 1)?, full);
    assert_eq!(rt; modules.count(), 1);
    assert_eq!(rt; register(alloc, &mut modules, b"B", 0)?, Ok(16384));
    let all = (modules.get(0), modules.get(1), modules.get(2));
    let want = (
        Some(Module {
            offset: 512,
            events: 15872,
            name: b"A",
        }),
        Some(Module {
            offset: 16384,
            events: 0,
            name: b"B",
        }),
        None,
    );
    assert_eq!(rt; all, want);
    Ok(())
}

#[test]
fn as_many_modules_as_there_may_be(rt: HostRuntime) -> Result<(), NoMemory> {
    let alloc = rt.alloc();
    let mut modules = Modules::new(alloc);
    for place in 0..64u32 {
        assert_eq!(rt;
            register(alloc, &mut modules, b"M", 2)?,
            Ok(512 + 2 * place)
        );
    }
    let full = Full {
        modules: 64,
        offset: 640,
    };
    assert_eq!(rt; register(alloc, &mut modules, b"M", 0)?, Err(full));
    assert!(rt; modules.is_full_for(0));
    assert_eq!(rt;
        format!(in alloc; "{full}")?.as_str(),
        "no room after 64 modules up to 640"
    );
    Ok(())
}

/// What a stored description says, through the bound alone: its lines, and a time.
fn says<D: Describes>(rt: &impl Abort, desc: &D, lines: &[&[u8]], moment: u64, micros: u64)
    requires kept { D.kept desc.now }
    requires moment { moment ≤ 2 ^ 54 }
{
    assert_eq!(rt; desc.count() as usize, lines.len());
    let mut index = 0;
    for line in lines {
        let mut out = Buf::new();
        if index < desc.count() {
            desc.line(index, &mut out);
            index += 1;
        }
        assert_eq!(rt; out.as_slice(), *line);
    }
    assert_eq!(rt; desc.micros(moment), micros);
}

#[test]
fn stored_callbacks_answer(rt: HostRuntime) -> Result<(), NoMemory> {
    let alloc = rt.alloc();
    let lines = [Bytes::new(alloc, b"OS=None")?, Bytes::new(alloc, b"N=x")?];
    if lines[0].bytes().len() != 7 || lines[1].bytes().len() != 3 {
        return Ok(());
    }
    for (clock, moment, micros) in [
        (2, 3, 1500000),
        (3, 1, 333333),
        (1, 1 << 54, 10376293541461622784),
        (4294967295, 4294967294, 999999),
    ] {
        let desc = Describe::new(
            &lines,
            clock,
            |index: u32, out: &mut Buf| put_line(&lines, index, out),
            |moment: u64| micros_of(clock, moment),
        );
        says(&rt, &desc, &[b"OS=None", b"N=x"], moment, micros);
    }
    Ok(())
}
