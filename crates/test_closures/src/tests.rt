//! Rules of a caller: which one is asked at a path, a merger of the caller's own, and a closure behind a box.
ghost use Rattle.std.specs.Prelude.{IfOk};
ghost use Rattle.std.specs.Option.{option_copied};

use ip_base::{Blob, Items, Memory, Path, Step};
use ip_merge::{Answer, Call, Counter, Decides, LineSet, Merged, Merger, Rules, Same, Three};
use std::alloc::Global;

#[derive(Drop)]
enum Want {
    Value(&'static [u8]),
    Conflict,
}

fn is_wanted(merged: &Merged, want: &Want) -> bool {
    match (merged, want) {
        (Merged::Keep(Some(value)), Want::Value(bytes)) => value.as_slice() == *bytes,
        (Merged::Conflict, Want::Conflict) => true,
        _ => false,
    }
}

// A merger of the test's own: the left bytes, where both are present.
#[derive(Drop)]
struct Left;

impl Merger for Left {
    ghost means = { λ first o a b merged. Unit {0} };

    fn merge(
        &self,
        alloc: Global,
        _base: Option<&[u8]>,
        left: Option<&[u8]>,
        right: Option<&[u8]>,
    ) -> Result<Merged, Memory> {
        match (left, right) {
            (Some(a), Some(_)) => Ok(Merged::Keep(Some(Blob::copy_of(alloc, a)?))),
            _ => Ok(Merged::Conflict),
        }
    }
}

// The left bytes and then the right ones, where both are present.
fn joined(alloc: Global, three: &Three) -> Result<Merged, Memory> {
    match (&three.left, &three.right) {
        (Some(left), Some(right)) => {
            let mut bytes = Vec::from_slice(alloc, left.as_slice())?;
            bytes.extend_from_slice(right.as_slice())?;
            Ok(Merged::Keep(Some(Blob::of(bytes))))
        }
        _ => Ok(Merged::Conflict),
    }
}

fn path(alloc: Global, steps: &[&[u8]]) -> Result<Path, Memory> {
    let mut path = Items::empty(alloc);
    for step in steps {
        path.push(Step::of(Blob::copy_of(alloc, step)?))?;
    }
    Ok(Path::of(path))
}

// What any rules answer at a path where there is no ancestor's value.
fn asked<D: Decides>(
    alloc: Global,
    rules: &D,
    path: &[Step],
    left: Option<&[u8]>,
    right: Option<&[u8]>,
) -> Result<Merged, Memory>
    ensures { IfOk result (λ merged. D.rule rules.now path.now None (option_copied left.entry) (option_copied right.entry) merged) }
{
    rules.answer(alloc, path, None, left, right)
}

// The same of the rules of this crate.
fn asked_of_rules(
    alloc: Global,
    rules: &Rules,
    path: &[Step],
    left: Option<&[u8]>,
    right: Option<&[u8]>,
) -> Result<Merged, Memory>
    ensures { IfOk result (λ merged. ⟦<Rules as Decides>⟧.rule rules.now path.now None (option_copied left.entry) (option_copied right.entry) merged) }
{
    asked(alloc, rules, path, left, right)
}

fn picks(alloc: Global, rules: &Rules, steps: &[&[u8]], want: &Want) -> Result<bool, Memory> {
    let at = path(alloc, steps)?;
    let merged = asked_of_rules(alloc, rules, at.steps(), Some(b"2"), Some(b"3"))?;
    Ok(is_wanted(&merged, want))
}

#[test]
fn rules_of_paths(rt: HostRuntime) -> Result<(), Memory> {
    let alloc = rt.alloc();
    let mut rules = Rules::new(alloc);
    assert!(rt; picks(alloc, &rules, &[b"n"], &Want::Conflict)?);
    rules.add(path(alloc, &[b"n"])?, Box::new(alloc, Counter)?)?;
    rules.add(path(alloc, &[b"n", b"x"])?, Box::new(alloc, Left)?)?;
    rules.add(path(alloc, &[b"m", b"x", b"y"])?, Box::new(alloc, Same)?)?;
    rules.add(path(alloc, &[b"n"])?, Box::new(alloc, LineSet)?)?;
    assert!(rt; rules.list.len() == 3);
    assert!(rt; rules.pick(&path(alloc, &[b"m", b"x"])?).is_none());
    rules.add(path(alloc, &[])?, Box::new(alloc, Counter)?)?;
    let rows: [(&[&[u8]], Want); 9] = [
        (&[], Want::Value(b"5")),
        (&[b"m", b"x"], Want::Value(b"5")),
        (&[b"m", b"x", b"y", b"z"], Want::Conflict),
        (&[b"n"], Want::Value(b"2\n3\n")),
        (&[b"n", b"y"], Want::Value(b"2\n3\n")),
        (&[b"n", b"x"], Want::Value(b"2")),
        (&[b"n", b"x", b"z"], Want::Value(b"2")),
        (&[b"nx"], Want::Value(b"5")),
        (&[b"o"], Want::Value(b"5")),
    ];
    for (steps, want) in &rows {
        assert!(rt; picks(alloc, &rules, steps, want)?);
    }
    Ok(())
}

#[test]
fn rule_of_a_closure(rt: HostRuntime) -> Result<(), Memory> {
    let alloc = rt.alloc();
    let mut rules = Rules::new(alloc);
    let both: Answer = Box::new(alloc, move |three: &Three| joined(alloc, three))?;
    rules.add_call(path(alloc, &[b"joined"])?, Call::new(both))?;
    assert!(rt; picks(alloc, &rules, &[b"joined"], &Want::Value(b"23"))?);
    assert!(rt; picks(alloc, &rules, &[b"joined", b"x"], &Want::Value(b"23"))?);
    let at = path(alloc, &[b"joined"])?;
    let merged = rules.merge_at(alloc, at.steps(), None, Some(b"2"), None)?;
    assert!(rt; is_wanted(&merged, &Want::Conflict));
    rules.add(at, Box::new(alloc, Counter)?)?;
    assert!(rt; picks(alloc, &rules, &[b"joined"], &Want::Value(b"5"))?);
    Ok(())
}
