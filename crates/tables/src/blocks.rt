// The blocks of a task: each is a bit of its plane.
ghost use Rattle.std.specs.Prelude.{◌≡◌, ◌-◌, ◌<◌, ◌≤◌, length};
ghost use Rattle.tables.specs.declared.blocks.Block.TheVariants.{Idle};
ghost use Rattle.tables.specs.Layout.{OneOf, Fits, planes_at, records_at};
ghost use Rattle.rows.specs.Splice.{cut};
ghost use Rattle.tables.specs.Planes.{plane_of, has};
ghost use Rattle.tables.specs.Decode.{view_blocks};
ghost use Rattle.tables.specs.Shows.{record_in};
ghost use Rattle.tables.specs.Blocks.{set_block};
ghost use Rattle.ledger.specs.Ledger.{set_blocks};

use crate::lent::Tables;
use crate::planes::{bit_of, put_bit};
use crate::shape::{PLANES_AT, Shape};

// In the order of the planes.
#[derive(Clone, Copy)]
pub enum Block {
    Idle,
    Suspended,
    Event,
    Message,
}

#[derive(Clone, Copy)]
pub struct Blocks {
    pub idle: bool,
    pub suspended: bool,
    pub event: bool,
    pub message: bool,
}

// The number of a block's plane.
fn plane_of(k: Block) -> usize
    ensures { (result ≡ plane_of k) × (result < 4) }
{
    k as usize
}

// Whether a task has a block. The planes lie at one place whatever the shape, so none is asked for.
fn has_block(tables: &[u8], t: u8, k: Block) -> bool
    requires { (records_at ≤ length tables.now) × OneOf 126 t }
    ensures { result ≡ has k (cut tables.now planes_at records_at) (t - 1) }
{
    let i = t as usize - 1;
    let at = PLANES_AT + 16 * plane_of(k) + i / 8;
    bit_of(tables[at], i % 8)
}

// Whether a task is idle. A loop over many tasks asks this, and holds no shape.
pub fn is_idle(tables: &[u8], t: u8) -> bool
    requires { (records_at ≤ length tables.now) × OneOf 126 t }
    ensures { result ≡ has Idle (cut tables.now planes_at records_at) (t - 1) }
{
    has_block(tables, t, Block::Idle)
}

pub fn load(tables: &[u8], shape: Shape, t: u8) -> Blocks
    requires { Fits shape (length tables.now) × OneOf shape.tasks t }
    ensures { result ≡ (record_in shape tables.now t).blocks }
{
    Blocks {
        idle: has_block(tables, t, Block::Idle),
        suspended: has_block(tables, t, Block::Suspended),
        event: has_block(tables, t, Block::Event),
        message: has_block(tables, t, Block::Message),
    }
}

impl<'a> Tables<'a> {
    ghost use Rattle.tables.specs.Lent.{Goes};

    // The blocks of a task, of tables that are lent for writing too.
    pub fn blocks(&self, t: u8) -> Blocks
        requires { OneOf self.now.shape.tasks t }
        ensures { result ≡ (record_in self.now.shape self.now.bytes.now t).blocks }
    {
        load(self.bytes, self.shape, t)
    }

    // Gives a task one block, or takes it.
    pub fn set_block(&mut self, t: u8, k: Block, on: bool)
        requires { OneOf self.old.shape.tasks t }
        ensures { Goes self.old self.new (λ c L. set_block k t on L) }
    {
        let i = t as usize - 1;
        let at = PLANES_AT + 16 * plane_of(k) + i / 8;
        self.bytes[at] = put_bit(self.bytes[at], i % 8, on);
    }

    // All blocks of a task at once.
    pub fn set_blocks(&mut self, t: u8, b: Blocks)
        requires { OneOf self.old.shape.tasks t }
        ensures { Goes self.old self.new (λ c L. set_blocks t (view_blocks b) L) }
    {
        self.set_block(t, Block::Idle, b.idle);
        self.set_block(t, Block::Suspended, b.suspended);
        self.set_block(t, Block::Event, b.event);
        self.set_block(t, Block::Message, b.message);
    }
}
