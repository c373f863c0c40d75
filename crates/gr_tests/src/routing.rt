ghost use Rattle.std.specs.Prelude.{◌≡◌, ◌<◌, ◌+◌, OnOk};

use gr_oql::{Query, Turned};
use gr_route::Router;
use gr_value::{Key, Value};
use std::alloc::Global;
use std::process::Abort;
use std::test::Fail;

// A key whose value was this one, or is.
fn turned(alloc: Global, was: bool, text: &[u8]) -> Result<Turned, Fail> {
    let (key, value) = (Key::read(alloc, b"t1")?, Some(Value::read(alloc, text)?));
    let (old, new) = if was { (value, None) } else { (None, value) };
    Ok(Turned {
        key,
        old,
        new,
        had: was,
        has: !was,
    })
}

// How many queries a change of that key reaches, and the first of them.
fn reached(alloc: Global, router: &Router, was: bool, text: &[u8]) -> Result<(usize, u32), Fail> {
    let turned = turned(alloc, was, text)?;
    let numbers = router.reach(alloc, &turned)?;
    let first = numbers.as_slice().first().copied().unwrap_or(9);
    Ok((numbers.len(), first))
}

// The number that a query gets.
fn number(alloc: Global, router: &mut Router, text: &str) -> Result<u32, Fail>
    requires { router.old.next < 9 }
    ensures { OnOk result (router.new.next ≡ router.old.next + 1) }
{
    let query = Query::parse(alloc, text)?;
    Ok(router.enrol(alloc, &query)?)
}

const BOTH: &str = "SELECT * FROM /trades WHERE price = 1 AND x = 2";

const ABOVE: &str = "SELECT * FROM /trades WHERE price > 1";

fn number_both_queries(rt: &impl Abort, alloc: Global, router: &mut Router) -> Result<(), Fail>
    requires { router.old.next ≡ 0 }
    ensures { OnOk result (router.new.next ≡ 2) }
{
    let both = number(alloc, router, BOTH)?;
    let above = number(alloc, router, ABOVE)?;
    assert!(rt; both == 0);
    assert!(rt; above == 1);
    Ok(())
}

fn reach_each(rt: &impl Abort, alloc: Global, router: &Router) -> Result<(), Fail> {
    let made = reached(alloc, router, false, b"{\"price\":2}")?;
    let removed = reached(alloc, router, true, b"{\"price\":1}")?;
    assert!(rt; made == (1, 1));
    assert!(rt; removed == (2, 0));
    Ok(())
}

fn number_anew(rt: &impl Abort, alloc: Global, router: &mut Router) -> Result<(), Fail>
    requires { router.old.next ≡ 2 }
{
    router.leave(1);
    let above = number(alloc, router, ABOVE)?;
    let made = reached(alloc, router, false, b"{\"price\":2}")?;
    assert!(rt; above == 2);
    assert!(rt; made == (1, 2));
    Ok(())
}

// A change is routed to the queries whose first part by AND its old or new value meets, and to those
// that have no such part. A number isn't given again.
#[test]
fn changes_are_routed_by_either_value(rt: HostRuntime) -> Result<(), Fail> {
    let alloc = rt.alloc();
    let mut router = Router::new(alloc)?;
    number_both_queries(&rt, alloc, &mut router)?;
    reach_each(&rt, alloc, &router)?;
    number_anew(&rt, alloc, &mut router)
}
