// The tables as they are lent for a frame: their bytes and the shape by which they are laid out, which the bytes have room for.
// What they hold of tasks, blocks and semaphores is read and written in tasks.rt, blocks.rt and semaphores.rt.
ghost use Rattle.std.specs.Prelude.{length};
ghost use Rattle.tables.specs.Layout.{Fits};

use crate::shape::Shape;

#[derive(Drop)]
pub struct Tables<'a> {
    pub bytes: &'a mut [u8],
    pub shape: Shape,
    ghost fits: { Fits shape (length bytes.now) },
}
