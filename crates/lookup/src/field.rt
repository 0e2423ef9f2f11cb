// The fields of a level. A name is not empty.
ghost use Rattle.std.specs.Prelude.{◌≡◌, ◌≤◌, ◌<◌, length};
ghost use Rattle.format.specs.Given.{maybe};
ghost use Rattle.format.specs.Values.{slots_of, find, field, bind, as_level};
ghost use Rattle.lookup.specs.Table.{found, Within};
ghost use Rattle.lookup.specs.View.{bytes, entries};
ghost use Rattle.lookup.specs.Values.{field_meaning, FieldInside};

use crate::value::Reading;
use crate::{ClxValue, Name, Tree};

impl<'a> Tree<'a> {
    // The entry of a name: the last child with it.
    pub fn get_entry(self, parent: usize, name: &[u8]) -> Option<usize>
        requires { (parent ≤ self.used) × (0 < length name.now) }
        ensures { (found result ≡ find name.now (slots_of (bytes self.entry) (entries self.entry) parent)) × Within self.entry.used result }
    {
        let end = self.end_of(parent);
        self.last_named(parent, end, Name::Ascii(name))
    }

    // The value of a name.
    pub fn get(self, parent: usize, name: &[u8]) -> Option<ClxValue>
        requires { (parent ≤ self.used) × (0 < length name.now) }
        ensures { (field_meaning (bytes self.entry) (entries self.entry) result
            ≡ field (bytes self.entry) (entries self.entry) parent name.now) × FieldInside self.entry.used result }
    {
        let i = self.get_entry(parent, name)?;
        Some(self.value_at(i))
    }

    // The level of a name.
    pub fn get_level(self, parent: usize, name: &[u8]) -> Option<usize>
        requires { (parent ≤ self.used) × (0 < length name.now) }
        ensures { (found result ≡ as_level (field (bytes self.entry) (entries self.entry) parent name.now)) × Within self.entry.used result }
    {
        self.level_at(self.get_entry(parent, name)?)
    }

    // What a name's value reads as.
    pub fn get_as<T: Reading>(self, parent: usize, name: &[u8]) -> Option<T>
        requires { (parent ≤ self.used) × (0 < length name.now) }
        ensures { maybe result ≡ bind (field (bytes self.entry) (entries self.entry) parent name.now) T.reading }
    {
        T::read(self.get(parent, name)?)
    }
}
