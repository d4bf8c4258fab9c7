// The pending messages as they are lent to be read: the bytes of the records, how many of these are taken, and how many tasks there are.
// They are read in lib.rt and searched in search.rt.
// Its facts are what the readers need: `Bounded` says besides that the slice has room for 64 at most, which `complete` and `load` never asked.
ghost use Rattle.std.specs.Prelude.{◌*◌, ◌≤◌, length};

#[derive(Clone, Copy)]
pub struct Messages<'a> {
    pub records: &'a [u8],
    pub count: usize,
    pub tasks: usize,
    ghost few: { count ≤ 64 },
    ghost room: { count * 4 ≤ length records.now },
}
