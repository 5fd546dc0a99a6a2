// Grounds in memory, whose calls fail by their numbers.
ghost use Rattle.std.specs.Prelude.{◌≤◌, IsTrue, IsFalse};

use ip_ground::{Bench, FileName, Ground};
use std::alloc::Global;
use std::test::Fail;

/// A ground without files, on which all calls from this number on fail.
pub fn ground(alloc: Global, stop: Option<u64>) -> Bench {
    Bench::new(alloc, Vec::new(alloc), stop, Vec::new(alloc))
}

// Whether the third of three calls is done, where it is one that fails.
fn third_is_done(bench: &mut Bench) -> bool
    requires { IsTrue (⟦<Bench as Ground>⟧.refuses bench.old 2) }
    ensures { IsFalse result }
{
    let _ = bench.write(FileName::Control, 0, &[1]);
    let _ = bench.sync(FileName::Control);
    bench.say(b"a").is_ok()
}

// The same of a ground whose calls fail from this number on.
fn third_is_done_behind(alloc: Global, stop: u64) -> bool
    ensures { stop ≤ 2 → IsFalse result }
{
    if stop > 2 {
        return false;
    }
    third_is_done(&mut Bench::new(alloc, Vec::new(alloc), Some(stop), Vec::new(alloc)))
}

#[test]
fn calls_fail_by_their_numbers(rt: HostRuntime) -> Result<(), Fail> {
    let alloc = rt.alloc();
    let third = vec![in alloc; 2]?;
    assert!(rt; !third_is_done(&mut Bench::new(alloc, third, None, Vec::new(alloc))));
    assert!(rt; !third_is_done_behind(alloc, 1));
    let mut stopped = ground(alloc, Some(2));
    assert!(rt; stopped.write(FileName::Control, 0, &[1]).is_ok());
    assert!(rt; stopped.sync(FileName::Control).is_ok());
    assert!(rt; stopped.write(FileName::Control, 0, &[2]).is_err());
    assert_eq!(rt; stopped.counts().file_faults, 1);
    Ok(())
}
