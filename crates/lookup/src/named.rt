// The children of a level that bear a name. A search is part of its caller, which knows what kind of name it is.
ghost use Rattle.std.specs.Prelude.{◌≡◌, not, ◌+◌, ◌*◌, ◌≤◌, ◌<◌, length};
ghost use Rattle.format.specs.Bytes.{same};
ghost use Rattle.format.specs.Text.{units, lossy};
ghost use Rattle.format.specs.Values.{name_of};
ghost use Rattle.lookup.specs.Table.{entry_in, Lies, found, Within, child_named, last_named, is_none};
ghost use Rattle.lookup.specs.View.{bytes, row};
ghost use Rattle.lookup.specs.Names.{name_in, Spelled};

use crate::entry::{name_at, parent_at, units_at};
use crate::{Name, Tree};
use name::ascii::name_is;
use name::same_name;

// Whether the name of entry i is this one, of ASCII bytes.
fn spelled(file: &[u8], table: &[u8], i: usize, name: &[u8]) -> bool
    requires { (48 * i + 48 ≤ length table.now) × Lies (length file.now) (entry_in table.now i) }
    ensures { result ≡ same name.now (name_of file.now (entry_in table.now i)) }
{
    name_is(
        file,
        name_at(table, i) as usize,
        units_at(table, i) as usize,
        name,
    )
}

// Whether the name of entry i is that of n units at `at`.
#[inline(never)]
fn alike(file: &[u8], table: &[u8], i: usize, at: usize, n: usize) -> bool
    requires { (48 * i + 48 ≤ length table.now) × Lies (length file.now) (entry_in table.now i) × (at + 2 * n ≤ length file.now) }
    ensures { result ≡ same (lossy (units n file.now at)) (name_of file.now (entry_in table.now i)) }
{
    same_name(
        file,
        at,
        n,
        name_at(table, i) as usize,
        units_at(table, i) as usize,
    )
}

// Whether entry i is a child of the level and bears the name.
#[inline(always)]
fn bears(file: &[u8], table: &[u8], parent: usize, i: usize, name: Name) -> bool
    requires { (48 * i + 48 ≤ length table.now) × Lies (length file.now) (entry_in table.now i) × Spelled file.now name }
    ensures { result ≡ child_named file.now (entry_in table.now) parent (name_in file.now name.entry) i }
{
    if parent_at(table, i) != parent {
        return false;
    }
    match name {
        Name::Ascii(b) => spelled(file, table, i, b),
        Name::Of(e) => alike(file, table, i, e.name as usize, e.units as usize),
    }
}

impl<'a> Tree<'a> {
    // The last child of a level with the name, before entry `to` of its run.
    #[inline(always)]
    pub fn last_named(self, parent: usize, to: usize, name: Name) -> Option<usize>
        requires { (parent ≤ to) × (to ≤ self.used) × Spelled (bytes self) name }
        ensures { (found result ≡ last_named (bytes self.entry) (row self.entry) parent (name_in (bytes self.entry) name.entry) to)
            × Within to result }
    {
        self.last_alike(parent, parent, to, None, name)
    }

    // The same from entry `from` of its run on; `before` where there is none.
    #[inline(always)]
    pub fn last_alike(
        self,
        parent: usize,
        from: usize,
        to: usize,
        before: Option<usize>,
        name: Name,
    ) -> Option<usize>
        requires { (parent ≤ from) × (from ≤ to) × (to ≤ self.used) × Spelled (bytes self) name
            × (found before ≡ last_named (bytes self) (row self) parent (name_in (bytes self) name) from) × Within from before }
        ensures { (found result ≡ last_named (bytes self.entry) (row self.entry) parent (name_in (bytes self.entry) name.entry) to)
            × Within to result }
    {
        let mut last = before;
        let mut i = from;
        while i < to {
            if bears(self.file, self.table, parent, i, name) {
                last = Some(i);
            }
            i = self.after(i);
        }
        last
    }

    // Whether a child of a level before entry `to` of its run bears the name.
    #[inline(always)]
    pub fn borne_before(self, parent: usize, to: usize, name: Name) -> bool
        requires { (parent ≤ to) × (to ≤ self.used) × Spelled (bytes self) name }
        ensures { not result ≡ is_none (last_named (bytes self.entry) (row self.entry) parent (name_in (bytes self.entry) name.entry) to) }
    {
        let mut i = parent;
        while i < to {
            if bears(self.file, self.table, parent, i, name) {
                return true;
            }
            i = self.after(i);
        }
        false
    }
}
