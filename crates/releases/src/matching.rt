// The differences of two texts, object by object.
ghost use Rattle.comparing.specs.Gathered.{ToldAlso};
ghost use Rattle.releases.specs.Promises.{pair_at, ObjectTold, FirstTold, ObjectAdded, SecondTold, BothTold};

use super::{Release, starts};
use comparing::{Difference, Found, Object, couples, gathering, matches_of};

// The pair of object i of the first text and object j of the second.
fn pair_objects(
    found: Found,
    a: Release,
    h: &[usize],
    i: usize,
    b: Release,
    h2: &[usize],
    j: usize,
) -> Found
    ensures { ToldAlso found (pair_at a.entry.side.text.now a.entry.side.definitions.now a.entry.side.values.now h.now a.entry.starts.now b.entry.side.text.now b.entry.side.definitions.now b.entry.side.values.now h2.now b.entry.starts.now i j) result }
{
    let first = Object {
        side: a.side,
        names: h,
        number: starts::one_more(i),
        from: starts::first_row(a.starts, i),
        many: starts::many_rows(a.starts, i),
    };
    let second = Object {
        side: b.side,
        names: h2,
        number: starts::one_more(j),
        from: starts::first_row(b.starts, j),
        many: starts::many_rows(b.starts, j),
    };
    couples::pair_of(found, first, second)
}

// Object i of the first text.
fn one_object(found: Found, a: Release, h: &[usize], i: usize, b: Release, h2: &[usize]) -> Found
    ensures { ObjectTold a.entry.side.text.now a.entry.side.definitions.now a.entry.side.objects.now a.entry.side.values.now h.now a.entry.starts.now b.entry.side.text.now b.entry.side.definitions.now b.entry.side.objects.now b.entry.side.values.now h2.now b.entry.objects.now b.entry.starts.now i found result }
{
    match matches_of::find_object(a.side, i, b.side, b.objects) {
        Some(j) => pair_objects(found, a, h, i, b, h2, j),
        None => {
            let alone = Difference {
                first_object: starts::one_more(i),
                second_object: 0,
                first_value: 0,
                second_value: 0,
            };
            gathering::and_one(found, alone)
        }
    }
}

// The objects of the first text.
fn first_objects(found: Found, a: Release, h: &[usize], b: Release, h2: &[usize]) -> Found
    ensures { FirstTold a.entry.side.text.now a.entry.side.definitions.now a.entry.side.objects.now a.entry.side.values.now h.now a.entry.starts.now b.entry.side.text.now b.entry.side.definitions.now b.entry.side.objects.now b.entry.side.values.now h2.now b.entry.objects.now b.entry.starts.now a.entry.many found result }
{
    let mut all = found;
    for i in 0..a.many {
        all = one_object(all, a, h, i, b, h2);
    }
    all
}

// Object j of the second text.
fn one_added(found: Found, a: Release, b: Release, j: usize) -> Found
    ensures { ObjectAdded a.entry.side.text.now a.entry.side.objects.now a.entry.objects.now b.entry.side.text.now b.entry.side.objects.now j found result }
{
    match matches_of::find_object(b.side, j, a.side, a.objects) {
        Some(_) => found,
        None => {
            let alone = Difference {
                first_object: 0,
                second_object: starts::one_more(j),
                first_value: 0,
                second_value: 0,
            };
            gathering::and_one(found, alone)
        }
    }
}

// The objects of the second text.
fn second_objects(found: Found, a: Release, b: Release) -> Found
    ensures { SecondTold a.entry.side.text.now a.entry.side.objects.now a.entry.objects.now b.entry.side.text.now b.entry.side.objects.now b.entry.many found result }
{
    let mut all = found;
    for j in 0..b.many {
        all = one_added(all, a, b, j);
    }
    all
}

// The objects of the first text and those of the second.
pub fn both_objects(found: Found, a: Release, h: &[usize], b: Release, h2: &[usize]) -> Found
    ensures { BothTold a.entry.side.text.now a.entry.side.definitions.now a.entry.side.objects.now a.entry.side.values.now h.now a.entry.objects.now a.entry.starts.now b.entry.side.text.now b.entry.side.definitions.now b.entry.side.objects.now b.entry.side.values.now h2.now b.entry.objects.now b.entry.starts.now a.entry.many b.entry.many found result }
{
    let all = first_objects(found, a, h, b, h2);
    second_objects(all, a, b)
}
