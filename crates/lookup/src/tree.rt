// A tree's entries as they stand in a table, and the file that they lie in.
ghost use Rattle.lookup.specs.Table.{Holds};

// The file, the table, and how many entries it has.
#[derive(Clone, Copy)]
pub struct Tree<'a> {
    pub file: &'a [u8],
    pub table: &'a [u8],
    pub used: usize,
    pub ghost holds: { Holds file.now table.now used },
}
