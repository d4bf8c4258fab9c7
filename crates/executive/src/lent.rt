// The blocks as they are lent for a frame: the configuration's frame, the tables by its shape, and the slots that it has room for.
// Where one block alone is changed, that one is passed on. The timers come beside them, since settling is not lent them.
ghost use Rattle.std.specs.Prelude.{length};
ghost use Rattle.executive.specs.Suits.{Slotted};

use tables::lent::Tables;

#[derive(Drop)]
pub struct Lent<'a, 'b> {
    pub config: &'a [u8],
    pub tables: &'a mut Tables<'b>,
    pub slots: &'a mut [u8],
    ghost slotted: { Slotted config.now tables.now.shape (length slots.now) },
}
