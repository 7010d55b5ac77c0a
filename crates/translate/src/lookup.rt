use crate::record::{Found, Record, Sort};
use crate::view::{Nodes, routine_named};
use lang::name::Name;
use reader::tree::Tree;

// The first routine of that name among the nodes.
fn among(tree: &Tree, routines: Nodes, name: Name) -> Option<Sort> {
    let mut first = None;
    let mut rest = routines;
    while let Some((n, before)) = rest.split_last(tree) {
        first = routine_named(tree, n, name).or(first);
        rest = before;
    }
    first
}

// What a record says of a name.
pub fn in_record(tree: &Tree, record: Record, name: Name) -> Option<Found> {
    match record {
        Record::Known { name: known, found } => (name == known).then_some(found),
        Record::Rest { level, start, end } => {
            let routines = Nodes {
                start: start as usize,
                end: end as usize,
            };
            among(tree, routines, name).map(|sort| Found {
                sort,
                level,
                offset: 0,
            })
        }
    }
}

// Of what was found so far and what a newer record says, the one further inward, and of one frame the older.
pub fn inner(found: Option<Found>, newer: Option<Found>) -> Option<Found> {
    match (found, newer) {
        (Some(old), Some(new)) if old.level < new.level => Some(new),
        (old, new) => old.or(new),
    }
}
