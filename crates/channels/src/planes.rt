// A walk over the components, by the plane records of a tree.
ghost use Rattle.std.specs.Prelude.{◌≡◌, ℕ, get_or};
ghost use Rattle.format.specs.Channels.{empty_channel, covered, planes_level, plane_records};
ghost use Rattle.lookup.specs.Table.{found, Within};
ghost use Rattle.lookup.specs.View.{bytes, row, entries};
ghost use Rattle.lookup.specs.Walks.{Standing};
ghost use Rattle.channels.specs.Ahead.{planes_from, record_of, Stands, Follows, no_planes};

use super::record::{channel_of, covers_of, no_channel};
use format::Channel;
use lookup::{ClxValue, Tree, Turn};

// The components that a walk has before it: the next one's record, to how many more that record goes, and where the walk stands after these, with so many
// components left at the most. The table has `used` entries.
#[derive(Clone, Copy)]
pub struct Planes {
    pub channel: Channel,
    pub again: u64,
    pub rest: Turn,
    pub left: u64,
    pub used: usize,
}

// Empty records alone.
pub fn no_planes() -> Planes
    ensures { result ≡ no_planes }
{
    Planes {
        channel: no_channel(),
        again: 0,
        rest: Turn::Over,
        left: 0,
        used: 0,
    }
}

// The level whose children are the planes. A match, since a closure that holds the tree does not say what it finds.
fn planes_level(tree: Tree) -> Option<usize>
    ensures { (found result ≡ planes_level (bytes tree.entry) (entries tree.entry)) × Within tree.entry.used result }
{
    let i = tree.get_level(0, b"SLxPictureMetadata")?;
    let j = tree.get_level(i + 1, b"sPicturePlanes")?;
    match tree.get_level(j + 1, b"sPlaneNew") {
        Some(k) => Some(k),
        None => tree.get_level(j + 1, b"sPlane"),
    }
}

// The records that the planes from `turn` on give to `most` components.
fn planes_from(tree: Tree, turn: Turn, most: u64) -> Planes
    requires { Standing (bytes tree) (row tree) tree.used turn }
    ensures { Stands (bytes tree.entry) tree.entry.table.now result
        × ((k : ℕ) → record_of (bytes tree.entry) tree.entry.table.now result k
        ≡ get_or (covered most (planes_from (bytes tree.entry) tree.entry.table.now tree.entry.used turn)) k empty_channel) }
{
    if most == 0 {
        return no_planes();
    }
    let Some((i, rest)) = tree.next_child(turn) else {
        return no_planes();
    };
    let n = covers_of(tree, i).min(most);
    Planes {
        channel: channel_of(tree, i),
        again: n - 1,
        rest,
        left: most - n,
        used: tree.used,
    }
}

// The components after the next one.
pub fn next_component(file: &[u8], table: &[u8], p: Planes) -> Planes
    requires { Stands file.now table.now p }
    ensures { Follows file.now table.now p result }
{
    if p.again == 0 {
        let tree = Tree {
            file,
            table,
            used: p.used,
        };
        return planes_from(tree, p.rest, p.left);
    }
    Planes {
        again: p.again - 1,
        ..p
    }
}

// The records that the planes of a tree give to `most` components.
pub fn planes_in(tree: Tree, most: u64) -> Planes
    ensures { Stands (bytes tree.entry) tree.entry.table.now result
        × ((k : ℕ) → record_of (bytes tree.entry) tree.entry.table.now result k
        ≡ get_or (covered most (plane_records (bytes tree.entry) (entries tree.entry))) k empty_channel) }
{
    let Some(i) = planes_level(tree) else {
        return no_planes();
    };
    let turn = tree.children(Some(ClxValue::Level(i)));
    planes_from(tree, turn, most)
}
